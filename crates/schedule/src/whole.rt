// Whole schedule files: checked with no memory, or read into a list of records.
ghost use Rattle.std.specs.Prelude.{◌≡◌, Ok};
ghost use Rattle.schedule.specs.Reading.{read_of};
ghost use Rattle.schedule.specs.Readers.{verdict, checked};
ghost use Rattle.schedule.specs.Collecting.{Collected};

use crate::Placed;
use crate::fault::{FileFault, ReadFault};
use crate::reader::Reader;
use std::alloc::Global;

// Whether the file is right from end to end, or its first fault.
pub fn check(file: &[u8]) -> Result<(), FileFault>
    ensures { checked result ≡ verdict (read_of file.now) }
{
    let mut reader = Reader::open(file)?;
    while let Some(_) = reader.next()? {}
    Ok(())
}

// The records of the file with their places. Memory is asked for only where the file is right.
pub fn read<'a>(heap: Global, file: &'a [u8]) -> Result<Vec<Placed<'a>>, ReadFault>
    ensures { Collected (read_of file.now) result }
{
    check(file)?;
    collect(heap, file)
}

// The records of a file that is right.
fn collect<'a>(heap: Global, file: &'a [u8]) -> Result<Vec<Placed<'a>>, ReadFault>
    requires { Ok tt ≡ verdict (read_of file.now) }
    ensures { Collected (read_of file.now) result }
{
    let mut records = Vec::new(heap);
    let mut reader = Reader::new(file);
    while let Some(placed) = reader.next()? {
        records.push(placed)?;
    }
    Ok(records)
}
