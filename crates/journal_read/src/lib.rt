// All of the switch's journal: how many records it has, and where an incomplete tail starts. Nothing of slatedb's: added.
#![tactic(auto)]

ghost use Rattle.journal_read.specs.Promise.{ReadsAll};

use journal::{Kind, Refusal};

// How many complete records there are, and where an incomplete one starts, if the journal ends inside one.
#[derive(Clone, Copy)]
pub struct Reading {
    pub records: usize,
    pub tail: Option<usize>,
}

// All of it: how many complete records there are, and where the tail starts.
pub fn read(journal: &[u8]) -> Result<Reading, Refusal>
    ensures { ReadsAll journal.now result }
{
    if journal::MAX_JOURNAL < journal.len() {
        return Err(Refusal::TooLong);
    }
    let mut at = 0;
    let mut records = 0;
    while at < journal.len() {
        let Ok(kind) = Kind::try_from(journal[at]) else {
            return Err(Refusal::UnknownKind(at));
        };
        let n = kind.length();
        if journal.len() - at < n {
            return Ok(Reading {
                records,
                tail: Some(at),
            });
        }
        at += n;
        records += 1;
    }
    Ok(Reading {
        records,
        tail: None,
    })
}
