// What a schedule file says: its settings, its start, and how many steps of each sort.
ghost use Rattle.std.specs.Prelude.{◌≡◌, ◌+◌, ◌^◌, ◌<◌, Some};
ghost use Rattle.schedule.specs.Items.{shown as item_of};
ghost use Rattle.judge.specs.Contents.{nothing, noted, steps, counted};
ghost use Rattle.judge.specs.Texts.{counts_text, contents_text};

use records::Class;
use schedule::Record;
use settings::Choice;
use std::fmt;

// What a file says. Before its settings and its start are noted their fields are 0 and `Response`;
// they are no Options, since an accepted file has both, and a reader's branch for None would never run.
#[derive(Clone, Copy)]
pub struct Contents {
    pub choice: Choice,
    pub class: Class,
    // table and present once more, and no `Start`, which borrows from the file: contents outlive it
    // the number of places for stations
    pub table: u16,
    // the number of stations present at the start
    pub present: u16,
    pub counts: StepCounts,
}

// How many steps of each sort there are.
#[derive(Clone, Copy, Default)]
pub struct StepCounts {
    pub ticks: u32,
    pub enters: u32,
    pub leaves: u32,
    pub crashes: u32,
    pub reads: u32,
    pub writes: u32,
    pub delivers: u32,
}

impl Contents {
    // What is known before any record is noted.
    pub(crate) fn new() -> Contents
        ensures { result ≡ nothing }
    {
        Contents {
            choice: Choice {
                alpha: 0,
                delta: 0,
                beta: 0,
                gamma: 0,
                nmin: 0,
                d: 0,
            },
            class: Class::Response,
            table: 0,
            present: 0,
            counts: StepCounts::default(),
        }
    }

    // Notes the next schedule record.
    pub(crate) fn note(&mut self, item: &Record<'_>)
        requires { steps self.old.counts + 1 < 2 ^ 32 }
        ensures { self.new ≡ noted self.old (item_of item.now) }
    {
        match item {
            Record::Settings(choice) => self.choice = *choice,
            Record::Start(start) => {
                self.class = start.class;
                self.table = start.table;
                self.present = start.present;
            }
            _ => self.counts.count(item),
        }
    }
}

impl StepCounts {
    // Counts the next schedule record, where it is a step.
    fn count(&mut self, item: &Record<'_>)
        requires { steps self.old + 1 < 2 ^ 32 }
        ensures { self.new ≡ counted self.old (item_of item.now) }
    {
        match item {
            Record::Settings(_) | Record::Start(_) => {}
            Record::Tick => self.ticks += 1,
            Record::Enter(_) => self.enters += 1,
            Record::Leave(_) => self.leaves += 1,
            Record::Crash(_) => self.crashes += 1,
            Record::Read(_) => self.reads += 1,
            Record::Write { .. } => self.writes += 1,
            Record::Deliver { .. } => self.delivers += 1,
        }
    }
}

impl fmt::Display for StepCounts {
    ghost output = { λ x. Some (counts_text x) };

    fn fmt<W: fmt::Write>(&self, f: &mut fmt::Formatter<W>) -> fmt::Result {
        write!(
            f,
            "{} ticks, {} enters, {} leaves, {} crashes, {} reads, {} writes, {} delivers",
            self.ticks,
            self.enters,
            self.leaves,
            self.crashes,
            self.reads,
            self.writes,
            self.delivers,
        )
    }
}

impl fmt::Display for Contents {
    ghost output = { λ x. Some (contents_text x) };

    fn fmt<W: fmt::Write>(&self, f: &mut fmt::Formatter<W>) -> fmt::Result {
        write!(
            f,
            "records {}\ntable {}\nstations {}\nsteps {}",
            self.class, self.table, self.present, self.counts
        )
    }
}
