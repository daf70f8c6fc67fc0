// The words of the lists that are replayed, and what they stand for: bytes in hexadecimal digits, numbers, rows; the answers, written in the same words; and the
// loop over a list's lines. `say` has the words of the cases.
#![tactic(auto)]

pub mod input;
pub mod lines;
pub mod offered;
pub mod parse;
pub mod say;
pub mod show;
pub mod words;
