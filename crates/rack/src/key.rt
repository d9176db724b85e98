// The key under which a copy is kept.
ghost use Rattle.std.specs.Prelude.{◌≡◌, ◌^◌, ◌<◌};
ghost use Rattle.rack.specs.Entries.{key_of};

// The key of a number and a station, which rises with the number and then with the station.
#[derive(Clone, Copy)]
pub(crate) struct Key {
    pub(crate) rank: u64,
    ghost small: { rank < 2 ^ 40 },
}

impl Key {
    pub(crate) fn new(number: u32, station: u8) -> Key
        ensures { result.rank ≡ key_of number station }
    {
        Key {
            rank: number as u64 * 256 + station as u64,
        }
    }
}
