// A station's operation.
ghost use Rattle.std.specs.Prelude.{◌≡◌};
ghost use Rattle.network.specs.Hearing.{kind_of};

use crate::poll::Poll;

#[derive(Clone, Copy)]
pub enum Kind {
    Read,
    Write,
}

// What an operation is to do: to read, or to write a record.
// Not an Option: none would read as nothing to do, and this is a read.
#[derive(Clone, Copy)]
pub enum Task<R> {
    Read,
    Write(R),
}

#[derive(Clone, Copy)]
pub enum Operation<R> {
    Idle { tag: u32 },
    // asks for records: replies are response messages
    PhaseOne { task: Task<R>, poll: Poll },
    // spreads the kept record: replies are acks
    PhaseTwo { kind: Kind, poll: Poll, kept: R },
}

impl<R: Copy> Task<R> {
    // Whether it reads or writes.
    pub fn kind(&self) -> Kind
        ensures { result ≡ kind_of self.now }
    {
        match self {
            Task::Read => Kind::Read,
            Task::Write(_) => Kind::Write,
        }
    }
}
