// A step of a run. A step of a file names its record by bytes, and a schedule does not know the network.

#[derive(Clone, Copy)]
pub enum Step<R> {
    Tick,
    Enter(u16),
    Leave(u16),
    Crash(u16),
    Read(u16),
    Write(u16, R),
    Deliver { message: u32, station: u16 },
}
