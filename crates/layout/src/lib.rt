// No code: this crate is the definitions of specs/ and what is proved of them.
#![tactic(auto)]
