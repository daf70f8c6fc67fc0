// The switch's journal: debits, top-ups and closes of cards, one after another, until their rows reach a block. Here are its records. `journal_read` reads all of it,
// `journal_balance` has a card's balance from it, `journal_append` appends to it. Nothing of slatedb's: added.
#![tactic(auto)]

ghost use Rattle.std.specs.Prelude.{◌≡◌, ◌+◌, ◌≤◌, length};
ghost use Rattle.journal.specs.Record.{byte_of, length_of, body_at, found_in};
ghost use Rattle.journal.specs.Promise.{Numbered, Decodes, StandsFor, Measures, HasKind, Finds};

// A journal has no more bytes.
pub const MAX_JOURNAL: usize = 65536;

#[derive(Clone, Copy)]
pub enum Refusal {
    // 30: the journal has over 65,536 bytes
    TooLong,
    // 31: a kind that is none of 1, 2 and 3, at this position
    UnknownKind(usize),
    // 32: the used length is past the buffer
    UsedPastBuffer,
    // 33: the used part ends inside a record
    EndsInside,
    // 34: the record doesn't fit the buffer, or 65,536 bytes
    NoRoom,
}

impl From<Refusal> for u8 {
    fn from(refusal: Refusal) -> u8
        ensures { Numbered refusal result }
    {
        match refusal {
            Refusal::TooLong => 30,
            Refusal::UnknownKind(_) => 31,
            Refusal::UsedPastBuffer => 32,
            Refusal::EndsInside => 33,
            Refusal::NoRoom => 34,
        }
    }
}

// A record's kind, by the byte that it starts with.
#[derive(Clone, Copy)]
pub enum Kind {
    Debit = 1,
    TopUp = 2,
    Close = 3,
}

// A byte that no record starts with.
#[derive(Clone, Copy)]
pub struct NoKind;

impl TryFrom<u8> for Kind {
    type Error = NoKind;

    fn try_from(byte: u8) -> Result<Kind, NoKind>
        ensures { Decodes byte result }
    {
        match byte {
            1 => Ok(Kind::Debit),
            2 => Ok(Kind::TopUp),
            3 => Ok(Kind::Close),
            _ => Err(NoKind),
        }
    }
}

impl From<Kind> for u8 {
    fn from(kind: Kind) -> u8
        ensures { StandsFor kind result }
    {
        kind as u8
    }
}

impl Kind {
    // How many bytes a record of this kind takes.
    pub fn length(self) -> usize
        ensures { Measures (byte_of self) result }
    {
        match self {
            Kind::Debit | Kind::TopUp => 21,
            Kind::Close => 9,
        }
    }
}

// How many bytes a record takes that starts with this byte; 0 if none does.
pub fn length_of(kind: u8) -> usize
    ensures { Measures kind result }
{
    match Kind::try_from(kind) {
        Ok(kind) => kind.length(),
        Err(_) => 0,
    }
}

#[derive(Clone, Copy)]
pub enum Record {
    Debit { card: u64, retry: u64, amount: u32 },
    TopUp { card: u64, retry: u64, amount: u32 },
    Close { card: u64 },
}

impl Record {
    pub fn kind(self) -> Kind
        ensures { HasKind self result }
    {
        match self {
            Record::Debit { .. } => Kind::Debit,
            Record::TopUp { .. } => Kind::TopUp,
            Record::Close { .. } => Kind::Close,
        }
    }
}

// What stands at a place: a record and the place after it; a record that the journal ends inside; the journal's end.
#[derive(Clone, Copy)]
pub enum Found {
    Whole { record: Record, next: usize },
    Incomplete,
    End,
}

// The record of this kind whose kind stands at `at`. What is read past a close's card is not its own, and is dropped.
fn body_at(journal: &[u8], at: usize, kind: Kind) -> Record
    requires { at + length_of (byte_of kind) ≤ length journal.now }
    ensures { result ≡ body_at (byte_of kind) journal.now at }
{
    let card = buf::eight(journal, at + 1);
    let retry = buf::eight(journal, at + 9);
    let amount = buf::four(journal, at + 17) as u32;
    match kind {
        Kind::Debit => Record::Debit {
            card,
            retry,
            amount,
        },
        Kind::TopUp => Record::TopUp {
            card,
            retry,
            amount,
        },
        Kind::Close => Record::Close { card },
    }
}

fn found_in(journal: &[u8], at: usize) -> Result<Found, Refusal>
    ensures { result ≡ found_in journal.now at }
{
    if journal.len() <= at {
        return Ok(Found::End);
    }
    let Ok(kind) = Kind::try_from(journal[at]) else {
        return Err(Refusal::UnknownKind(at));
    };
    let n = kind.length();
    if journal.len() - at < n {
        return Ok(Found::Incomplete);
    }
    Ok(Found::Whole {
        record: body_at(journal, at, kind),
        next: at + n,
    })
}

// The record at `at`.
pub fn record_at(journal: &[u8], at: usize) -> Result<Found, Refusal>
    ensures { Finds journal.now at result }
{
    if MAX_JOURNAL < journal.len() {
        return Err(Refusal::TooLong);
    }
    found_in(journal, at)
}
