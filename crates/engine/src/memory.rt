// What a network keeps.
ghost use Rattle.std.specs.Prelude.{◌≡◌, None};

use book::LimitBook;
use network::{Done, Station};
use operation_log::OperationLog;
use settings::Settings;
use stations::Stations;

#[derive(Drop)]
pub struct Memory<'a, R, C> {
    pub(crate) settings: Settings,
    pub(crate) first: R,
    // what was lent: the table, and past it what nobody touches
    pub(crate) stations: &'a mut [Station<R, Stations>],
    // the length of the table
    pub(crate) table: u16,
    pub(crate) carrier: C,
    pub(crate) log: OperationLog<'a, R>,
    pub(crate) book: LimitBook,
    pub(crate) clock: u16,
    // the next message number
    pub(crate) next: u32,
    // who is present, and who is present and not crashed: kept beside the stations, so that no step goes through them all
    pub(crate) present: Stations,
    pub(crate) active: Stations,
}

impl<'a, R: Copy, C> Memory<'a, R, C> {
    // What a step came to that sent nothing.
    pub(crate) fn nothing_sent(&self) -> Done<R>
        ensures { result ≡ record { sent = 0; from = self.now.next; ended = None } }
    {
        Done {
            sent: 0,
            from: self.next,
            ended: None,
        }
    }
}
