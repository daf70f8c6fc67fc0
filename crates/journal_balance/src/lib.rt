// The balance of a card in the switch's journal: its top-ups less its debits, of those that count. Nothing of slatedb's: added.
#![tactic(auto)]

ghost use Rattle.std.specs.Prelude.{◌≡◌, ◌+◌, ◌^◌, ◌≤◌, ◌<◌, pos, ◌-ℤ◌, length, get_or};
ghost use Rattle.journal.specs.Record.{byte_of, length_of};
ghost use Rattle.journal_balance.specs.Parts.{Named, Earlier, CountsOne};
ghost use Rattle.journal_balance.specs.Tree.{Tree, Offers, Keeps};
ghost use Rattle.journal_balance.specs.Promise.{Balances};

use journal::{Kind, Refusal};

// The tree's slots: one for each kind, and two for each 21 bytes.
const SLOTS: usize = 6240;

// A card's balance, and where an incomplete record starts, if the journal ends inside one.
#[derive(Clone, Copy)]
pub struct Balanced {
    pub balance: i64,
    pub tail: Option<usize>,
}

// The amounts that count so far, and whether the card is closed.
#[derive(Clone, Copy)]
struct Sums {
    ups: u64,
    downs: u64,
    closed: bool,
}

impl Sums {
    // Top-ups less debits.
    fn balance(self) -> i64
        requires { (self.ups < 2 ^ 49) × (self.downs < 2 ^ 49) }
        ensures { result ≡ pos self.ups -ℤ pos self.downs }
    {
        (self.ups as i64) - (self.downs as i64)
    }
}

// Whether the record at `p` has this kind, card and retry number. The retry number comes first: of three it most often tells two records apart.
fn named_at(journal: &[u8], p: usize, kind: Kind, card: u64, retry: u64) -> bool
    requires { (p < length journal.now) × (length journal.now ≤ 65536) × (length_of (byte_of kind) ≡ 21) }
    ensures { Named journal.now p (byte_of kind) card retry result }
{
    buf::eight(journal, p + 9) == retry
        && buf::eight(journal, p + 1) == card
        && journal[p] == u8::from(kind)
}

// Whether one of the kind, card and retry number of the record at `at` stands before it; if none does, the tree takes in this one. A walk meets at most 65 records: two
// retry numbers that differ part within 64 bits.
fn seen(
    journal: &[u8],
    tree: &mut [u16; SLOTS],
    at: usize,
    kind: Kind,
    card: u64,
    retry: u64,
) -> bool
    requires offers { Offers journal.now at (byte_of kind) card retry }
    requires tree { Tree journal.now card at tree.old }
    ensures earlier { Earlier journal.now at (byte_of kind) card retry result }
    ensures tree_2 { Tree journal.now card (at + 21) tree.new }
{
    let mut slot = usize::from(u8::from(kind) % 2);
    let mut bits = retry;
    // A slot has 0, or the place of a record and one more.
    while let Some(p) = usize::from(tree[slot]).checked_sub(1) {
        if named_at(journal, p, kind, card, retry) {
            return true;
        }
        slot = 2 + p / 21 * 2 + (bits % 2) as usize;
        bits /= 2;
    }
    tree[slot] = (at + 1) as u16;
    false
}

// The sums after the record at `at`. A record counts if none of its kind, card and retry number came before it, and no close of its card did.
fn counted(
    journal: &[u8],
    tree: &mut [u16; SLOTS],
    at: usize,
    kind: Kind,
    card: u64,
    s: Sums,
) -> Sums
    requires kind_value { (byte_of kind ≡ get_or journal.now at 0) × (at + length_of (byte_of kind) ≤ length journal.now) × (length journal.now ≤ 65536) × (s.ups + s.downs ≤ 2 ^ 48) }
    requires keeps { Keeps journal.now card at s.closed tree.old }
    ensures counts_one { CountsOne journal.now at card s result }
    ensures keeps_2 { Keeps journal.now card (at + length_of (byte_of kind)) result.closed tree.new }
{
    if s.closed {
        return s;
    }
    if buf::eight(journal, at + 1) != card {
        return s;
    }
    if let Kind::Close = kind {
        return Sums { closed: true, ..s };
    }
    let retry = buf::eight(journal, at + 9);
    if seen(journal, tree, at, kind, card, retry) {
        return s;
    }
    let amount = buf::four(journal, at + 17) as u64;
    if let Kind::Debit = kind {
        return Sums {
            downs: s.downs + amount,
            ..s
        };
    }
    Sums {
        ups: s.ups + amount,
        ..s
    }
}

// The balance of a card.
pub fn balance(journal: &[u8], card: u64) -> Result<Balanced, Refusal>
    ensures { Balances journal.now card result }
{
    if journal::MAX_JOURNAL < journal.len() {
        return Err(Refusal::TooLong);
    }
    let mut tree = [0; SLOTS];
    let mut s = Sums {
        ups: 0,
        downs: 0,
        closed: false,
    };
    let mut at = 0;
    while at < journal.len() {
        let Ok(kind) = Kind::try_from(journal[at]) else {
            return Err(Refusal::UnknownKind(at));
        };
        let n = kind.length();
        if journal.len() - at < n {
            return Ok(Balanced {
                balance: s.balance(),
                tail: Some(at),
            });
        }
        s = counted(journal, &mut tree, at, kind, card, s);
        at += n;
    }
    Ok(Balanced {
        balance: s.balance(),
        tail: None,
    })
}
