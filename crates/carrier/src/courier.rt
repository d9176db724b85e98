// A client of any carrier: takes only a copy that it looked up, where it is applied next.
ghost use Rattle.std.specs.Prelude.{◌≡◌, length, if◌then◌else◌, None, nat_lt, slice_index_or};
ghost use Rattle.carrier.specs.Owing.{answered, turned_at};
ghost use Rattle.carrier.specs.Waits.{without};

use crate::interface::Carrier;
use crate::owed::{Receiver, take_owed};

// Hands the copy under a number to its station, and answers what that said; moves on where no such copy waits, or there is no such station.
pub fn hand_over<B: Copy, C: Carrier<B>, R: Receiver<B>>(
    carrier: &mut C,
    number: u32,
    station: u8,
    stations: &mut [R],
) -> Option<R::Answer>
    ensures value { (d : R) → result ≡ (if nat_lt station (length stations.old) then answered (R.answer (slice_index_or stations.old station d)) (C.waits carrier.old number station) else None) }
    ensures taken { C.waits carrier.new ≡ (if nat_lt station (length stations.old) then without number station (C.waits carrier.old) else C.waits carrier.old) }
    ensures turned { (d : R) → stations.new ≡ turned_at stations.old station (R.turned (slice_index_or stations.old station d)) (C.waits carrier.old number station) }
    ensures same { C.room carrier.new ≡ C.room carrier.old }
{
    if station as usize >= stations.len() {
        return None;
    }
    carrier.look(number, station)?;
    let owed = take_owed(carrier, number, station).ok()?;
    // not ok(): it would let go a debt that came back, and that none does is proved here alone
    match owed.apply(stations) {
        Ok(answer) => Some(answer),
        Err(_) => None,
    }
}
