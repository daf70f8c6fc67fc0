// Records appended to the switch's journal. Nothing of slatedb's: added.
#![tactic(auto)]

ghost use Rattle.std.specs.Prelude.{◌≡◌, ◌+◌, ◌≤◌, length};
ghost use Rattle.layout.specs.Place.{splice};
ghost use Rattle.journal.specs.Record.{length_of, kind_of, body_bytes, record_bytes};
ghost use Rattle.journal_append.specs.Parts.{Places};
ghost use Rattle.journal_append.specs.Promise.{Appends};

use journal::{Record, Refusal};

// Card, retry number and amount, high byte first.
fn write_body(buffer: &mut [u8], at: usize, card: u64, retry: u64, amount: u32)
    requires { at + 20 ≤ length buffer.old }
    ensures { buffer.new ≡ splice buffer.old at (body_bytes card retry amount) }
{
    let _ = buf_mut::put_u64(buffer, at, card);
    let _ = buf_mut::put_u64(buffer, at + 8, retry);
    let _ = buf_mut::put_u32(buffer, at + 16, amount);
}

// A record at `used`, which there is room for.
fn write_record(buffer: &mut [u8], used: usize, record: Record)
    requires { used + length_of (kind_of «record») ≤ length buffer.old }
    ensures { buffer.new ≡ splice buffer.old used (record_bytes «record») }
{
    buffer[used] = u8::from(record.kind());
    match record {
        Record::Debit {
            card,
            retry,
            amount,
        }
        | Record::TopUp {
            card,
            retry,
            amount,
        } => write_body(buffer, used + 1, card, retry, amount),
        Record::Close { card } => {
            let _ = buf_mut::put_u64(buffer, used + 1, card);
        }
    }
}

// A record after a used part that is whole: the new used length.
fn append_whole(buffer: &mut [u8], used: usize, record: Record) -> Result<usize, Refusal>
    requires { (used ≤ length buffer.old) × (used ≤ 65536) }
    ensures { Places buffer.old used «record» result buffer.new }
{
    let n = record.kind().length();
    if buffer.len() - used < n {
        return Err(Refusal::NoRoom);
    }
    if journal::MAX_JOURNAL - used < n {
        return Err(Refusal::NoRoom);
    }
    write_record(buffer, used, record);
    Ok(used + n)
}

// Appends a record to the first `used` bytes of the buffer: 32, 30, 31, 33, 34. Good answers the new used length.
pub fn append(buffer: &mut [u8], used: usize, record: Record) -> Result<usize, Refusal>
    ensures { Appends buffer.old used «record» result buffer.new }
{
    let Some(part) = buffer.get(..used) else {
        return Err(Refusal::UsedPastBuffer);
    };
    let reading = journal_read::read(part)?;
    match reading.tail {
        Some(_) => Err(Refusal::EndsInside),
        None => append_whole(buffer, used, record),
    }
}
