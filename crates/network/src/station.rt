// What the network keeps of a station. `R` is the kind of record, `S` how a set of stations is kept.
// A parameter and no `impl Model`: code keeps sets as `Stations`, rules as tests on numbers, and both read these very types.
use crate::known::Known;
use crate::operation::Operation;
use crate::register::Register;

#[derive(Clone, Copy)]
pub enum Life {
    Unused,
    Present,
    Left,
}

#[derive(Clone, Copy)]
pub struct Station<R, S> {
    pub life: Life,
    // crashed and joined are no cases of `life`: both stay as they are when the station leaves
    pub crashed: bool,
    pub joined: bool,
    pub known: Known<S>,
    pub register: Register<R>,
    // enter-echoes counted for its own joining
    pub echoes: u32,
    // once set, the present count of which a share of echoes lets it join
    pub bound: Option<u16>,
    pub operation: Operation<R>,
}
