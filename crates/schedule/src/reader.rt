// Reads a schedule file record by record, in one pass and with no memory of its own.
ghost use Rattle.std.specs.Prelude.{◌≡◌, ◌≤◌, length, Ok, Err, IfOk, MatchResult};
ghost use Rattle.schedule.specs.declared.stage.Stage.TheVariants.{Settings};
ghost use Rattle.schedule.specs.Reading.{record_of, read_of, most_bytes};
ghost use Rattle.schedule.specs.Readers.{measured_of, to_come, turn_at, answer, answered, stage_past, place_past};

use crate::fault::{FileFault, Flaw};
use crate::frame::read_frame;
use crate::stage::Stage;
use crate::{Placed, Record};

// The most bytes that a file may have.
pub const MOST_BYTES: usize = 65_536;

// A place in a schedule file, and what is to come there.
#[derive(Clone, Copy, Drop)]
pub struct Reader<'a> {
    pub file: &'a [u8],
    pub at: usize,
    pub stage: Stage,
}

// A schedule record, and how many bytes it takes.
#[derive(Clone, Copy, Drop)]
struct Sized<'a> {
    pub item: Record<'a>,
    pub size: usize,
}

// The schedule record at the front of the bytes.
fn read_record<'a>(bytes: &'a [u8], stage: Stage) -> Result<Sized<'a>, Flaw>
    ensures { measured_of result ≡ record_of stage bytes.now }
{
    let frame = read_frame(bytes)?;
    let item = stage.decide(frame)?;
    Ok(Sized {
        item,
        size: 4 + frame.body.len(),
    })
}

impl<'a> Reader<'a> {
    // A reader at the start of a file.
    pub fn new(file: &'a [u8]) -> Reader<'a>
        ensures file { result.file.now ≡ file.now }
        ensures at { result.at ≡ 0 }
        ensures stage { result.stage ≡ Settings }
    {
        Reader {
            file,
            at: 0,
            stage: Stage::Settings,
        }
    }

    // A reader at the start of a file, unless that is longer than a file may be.
    pub fn open(file: &'a [u8]) -> Result<Reader<'a>, FileFault>
        ensures read { MatchResult result (λ r. to_come r ≡ read_of file.now) (λ e. read_of file.now ≡ Err e) }
        ensures start { IfOk result (λ r. (r.file.now ≡ file.now) × (r.at ≡ 0)) }
        ensures short { IfOk result (λ _. length file.now ≤ most_bytes) }
    {
        if file.len() > MOST_BYTES {
            return Err(FileFault::Oversize);
        }
        Ok(Reader::new(file))
    }

    // The next schedule record with its place, or none at the end of the file.
    // A fault is met again at the next call, so this is no `Iterator`: its items would have no end.
    #[tactic(auto, using(crate::proofs::Turns::turn_past_end, crate::proofs::Turns::turn_here, crate::proofs::Turns::record_size))]
    pub fn next(&mut self) -> Result<Option<Placed<'a>>, FileFault>
        ensures answer { answered result ≡ answer (turn_at self.old) }
        ensures stage { self.new.stage ≡ stage_past self.old.stage (turn_at self.old) }
        ensures place { self.new.at ≡ place_past self.old.at (turn_at self.old) }
        ensures file { self.new.file.now ≡ self.old.file.now }
    {
        let at = self.at;
        let stage = self.stage;
        if at >= self.file.len() {
            return match stage {
                Stage::Steps(_) => Ok(None),
                _ => Err(FileFault::At {
                    flaw: Flaw::Order,
                    at,
                }),
            };
        }
        let Sized { item, size } = read_record(&self.file[at..], stage).map_err(
            |flaw| FileFault::At { flaw, at },
        )?;
        self.at = at + size;
        self.stage = stage.after(&item);
        Ok(Some(Placed { at, item }))
    }
}
