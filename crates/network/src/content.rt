// What the eleven messages say.
use crate::known::Known;
use crate::register::Register;

#[derive(Clone, Copy)]
pub enum Content<R, S> {
    Enter {
        of: u8,
    },
    EnterEcho {
        known: Known<S>,
        register: Register<R>,
        joined: bool,
        of: u8,
    },
    Joined {
        of: u8,
    },
    JoinedEcho {
        of: u8,
    },
    Leave {
        of: u8,
    },
    LeaveEcho {
        of: u8,
    },
    Query {
        asker: u8,
        tag: u32,
    },
    Response {
        register: Register<R>,
        tag: u32,
    },
    Update {
        register: Register<R>,
        tag: u32,
        asker: u8,
    },
    Ack {
        tag: u32,
    },
    UpdateEcho {
        register: Register<R>,
    },
}
