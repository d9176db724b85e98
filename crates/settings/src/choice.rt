// Six numbers as somebody chose them, admitted or not.

#[derive(Clone, Copy, PartialEq, Eq, Debug)]
pub struct Choice {
    // churn: the largest change of the number of stations, in hundredths
    pub alpha: u16,
    // crashes: the largest share of crashed stations, in hundredths
    pub delta: u16,
    // quorum: the share of stations whose answers complete a phase, in hundredths
    pub beta: u16,
    // join bound: the share of stations whose echoes complete an entry, in hundredths
    pub gamma: u16,
    // the fewest stations that are ever present
    pub nmin: u16,
    // the longest delay of a message, in ticks
    pub d: u16,
}
