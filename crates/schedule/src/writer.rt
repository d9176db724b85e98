// Writes schedule records into a lent buffer, and refuses what the reader would.
ghost use Rattle.std.specs.Prelude.{◌≡◌, ◌≤◌, map, length, nat_le};
ghost use Rattle.schedule.specs.Items.{shown};
ghost use Rattle.schedule.specs.Reading.{most_bytes};
ghost use Rattle.schedule.specs.Readers.{lengthwise, checked_length};
ghost use Rattle.schedule.specs.Writing.{spelled, written, at_front, buffer_after, how_long, wrote, WrittenIsRead, ReadIsWritten};

use crate::Record;
use crate::fault::{FileFault, Flaw, WriteFault};
use crate::reader::MOST_BYTES;
use crate::stage::Stage;
use settings::SettingsFault;

// Writes the file of the records at the front of the buffer, and answers how many bytes it has.
// A refusal writes nothing, and what follows the file stays as it was.
pub fn write(records: &[Record<'_>], buffer: &mut [u8]) -> Result<usize, WriteFault>
    ensures value { wrote result ≡ how_long (written (length buffer.old) (map shown records.now)) }
    ensures after { buffer.new ≡ buffer_after (written (length buffer.old) (map shown records.now)) buffer.old }
    ensures back { WrittenIsRead }
    ensures only { ReadIsWritten }
{
    let len = check_records(records)?;
    if buffer.len() < MOST_BYTES {
        return Err(SettingsFault::MemorySize.into());
    }
    put_records(records, buffer);
    Ok(len)
}

// The length of the file that the records make, or why a reader would refuse it.
fn check_records(records: &[Record<'_>]) -> Result<usize, FileFault>
    ensures { lengthwise result ≡ checked_length (spelled (map shown records.now)) }
{
    if !fit_in_file(records) {
        return Err(FileFault::Oversize);
    }
    let mut at = 0;
    let mut stage = Stage::Settings;
    for item in records {
        stage = stage.past(item).map_err(|flaw| FileFault::At { flaw, at })?;
        at += item.size();
    }
    match stage {
        Stage::Steps(_) => Ok(at),
        _ => Err(FileFault::At {
            flaw: Flaw::Order,
            at,
        }),
    }
}

// Whether the records make a file of at most the most bytes.
fn fit_in_file(records: &[Record<'_>]) -> bool
    ensures { result ≡ nat_le (length (spelled (map shown records.now))) most_bytes }
{
    let mut left = MOST_BYTES;
    // a loop, which ends at the first record without room: a fold would go through them all
    for item in records {
        match left.checked_sub(item.size()) {
            Some(rest) => left = rest,
            None => return false,
        }
    }
    true
}

// Puts records that fit, from the front of the buffer on.
fn put_records(records: &[Record<'_>], buffer: &mut [u8])
    requires fits { length (spelled (map shown records.now)) ≤ length buffer.old }
    requires short { length (spelled (map shown records.now)) ≤ most_bytes }
    ensures { buffer.new ≡ at_front (spelled (map shown records.now)) buffer.old }
{
    let mut at = 0;
    for item in records {
        at += item.put(&mut buffer[at..]);
    }
}
