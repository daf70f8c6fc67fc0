// The journal's C interface: flat functions over numbers and lent slices. Each answers a code: 0 for good, the number of a refusal, 253 for a record that the journal ends
// inside, 254 for lent words or a kind offered that mean nothing, which is tested first, and 255 at the journal's end; what else it answers goes to lent words. A refusal
// leaves them, but for the position that 31 tells. Nothing of slatedb's: added.
#![tactic(auto)]

ghost use Rattle.std.specs.Prelude.{◌≡◌, length};
ghost use Rattle.slatedb_journal.specs.Flat.{record_count, record_words, place_told, offered_by};
ghost use Rattle.slatedb_journal.specs.Promise.{FindsFlat, ReadsFlat, BalancesFlat, AppendsFlat};

use journal::{Found, Record, Refusal};

const GOOD: u8 = 0;

const INCOMPLETE: u8 = 253;

const BAD_WORDS: u8 = 254;

const END: u8 = 255;

// A record's: kind, card, retry number, amount, and the place after it.
const RECORD_WORDS: usize = 5;

// 31 tells its position; of another refusal the word stays.
fn told(refusal: Refusal, place: u64) -> u64
    ensures { result ≡ place_told refusal place }
{
    match refusal {
        Refusal::UnknownKind(at) => at as u64,
        _ => place,
    }
}

// ---- the reader

// A record that was found. A close has retry number and amount 0.
fn put_record(words: &mut [u64], record: Record, next: usize)
    requires { length words.old ≡ record_count }
    ensures { words.new ≡ record_words «record» next }
{
    let kind = u64::from(u8::from(record.kind()));
    match record {
        Record::Debit {
            card,
            retry,
            amount,
        }
        | Record::TopUp {
            card,
            retry,
            amount,
        } => words.copy_from_slice(&[kind, card, retry, amount as u64, next as u64]),
        Record::Close { card } => words.copy_from_slice(&[kind, card, 0, 0, next as u64]),
    }
}

// The record at `at`: 254, 30, 255, 31, 253. The position of a 31 is `at`.
#[unsafe(no_mangle)]
pub extern "C" fn slatedb_journal_record_at(journal: &[u8], at: usize, words: &mut [u64]) -> u8
    ensures { FindsFlat journal.now at words.old result words.new }
{
    if words.len() != RECORD_WORDS {
        return BAD_WORDS;
    }
    match journal::record_at(journal, at) {
        Ok(Found::Whole { record, next }) => {
            put_record(words, record, next);
            GOOD
        }
        Ok(Found::Incomplete) => INCOMPLETE,
        Ok(Found::End) => END,
        Err(refusal) => u8::from(refusal),
    }
}

// Reads a journal: 30, 31. Good sets `records` to how many complete ones there are, and `place` to where they end: the tail's start, or the journal's length.
#[unsafe(no_mangle)]
pub extern "C" fn slatedb_journal_read(journal: &[u8], records: &mut u64, place: &mut u64) -> u8
    ensures { ReadsFlat journal.now records.old place.old result records.new place.new }
{
    match journal_read::read(journal) {
        Ok(reading) => {
            *records = reading.records as u64;
            *place = reading.tail.unwrap_or(journal.len()) as u64;
            GOOD
        }
        Err(refusal) => {
            *place = told(refusal, *place);
            u8::from(refusal)
        }
    }
}

// ---- the balance

// The balance of a card: 30, 31. Good sets `balance`, and `place` as the reader does.
#[unsafe(no_mangle)]
pub extern "C" fn slatedb_journal_balance(
    journal: &[u8],
    card: u64,
    balance: &mut i64,
    place: &mut u64,
) -> u8
    ensures { BalancesFlat journal.now card balance.old place.old result balance.new place.new }
{
    match journal_balance::balance(journal, card) {
        Ok(balanced) => {
            *balance = balanced.balance;
            *place = balanced.tail.unwrap_or(journal.len()) as u64;
            GOOD
        }
        Err(refusal) => {
            *place = told(refusal, *place);
            u8::from(refusal)
        }
    }
}

// ---- the writer

// What is offered to be appended; none for a kind that is none of the three.
fn offer_of(kind: u64, card: u64, retry: u64, amount: u32) -> Option<Record>
    ensures { result ≡ offered_by kind card retry amount }
{
    match kind {
        1 => Some(Record::Debit {
            card,
            retry,
            amount,
        }),
        2 => Some(Record::TopUp {
            card,
            retry,
            amount,
        }),
        3 => Some(Record::Close { card }),
        _ => None,
    }
}

// Appends a record to the first `used` bytes: 254, 32, 30, 31, 33, 34. Good sets `place` to the new used length. A close takes no notice of the retry number and the amount.
#[unsafe(no_mangle)]
pub extern "C" fn slatedb_journal_append(
    buffer: &mut [u8],
    used: usize,
    kind: u64,
    card: u64,
    retry: u64,
    amount: u32,
    place: &mut u64,
) -> u8
    ensures { AppendsFlat buffer.old used (offered_by kind card retry amount) place.old result buffer.new place.new }
{
    let Some(record) = offer_of(kind, card, retry, amount) else {
        return BAD_WORDS;
    };
    match journal_append::append(buffer, used, record) {
        Ok(next) => {
            *place = next as u64;
            GOOD
        }
        Err(refusal) => {
            *place = told(refusal, *place);
            u8::from(refusal)
        }
    }
}
