// A set of stations, kept as one bit for each of the 256 station numbers.
#![tactic(auto)]

ghost use Rattle.std.specs.Prelude.{◌≡◌, true};
ghost use Rattle.stations.specs.Words.{are_words};

mod calls;

// Words of this width are known from the members, so sets with the same members are equal.
#[derive(Clone, Copy, PartialEq, Eq, Debug)]
pub struct Stations {
    words: [u64; 4],
    ghost whole: { are_words 4 words ≡ true },
}
