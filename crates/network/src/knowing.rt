// What a station learns of the others, and how many of them it knows.
ghost use Rattle.std.specs.Prelude.{◌≡◌, ◌≤◌};
ghost use Rattle.network.specs.Knowing.{knows_nobody, note_entered, note_joined, note_left, add_known, present_count, member_count};
ghost use Rattle.network.specs.Shown.{shown_known};

use crate::known::Known;
use stations::Stations;

impl Known<Stations> {
    // Knows of nobody.
    pub(crate) fn nobody() -> Known<Stations>
        ensures { shown_known result ≡ knows_nobody }
    {
        Known {
            entered: Stations::none(),
            joined: Stations::none(),
            left: Stations::none(),
        }
    }

    // Three methods and not one that takes the set: rules have a word for each.
    pub(crate) fn note_entered(&mut self, p: u8)
        ensures { shown_known self.new ≡ note_entered p (shown_known self.old) }
    {
        self.entered.insert(p);
    }

    pub(crate) fn note_joined(&mut self, p: u8)
        ensures { shown_known self.new ≡ note_joined p (shown_known self.old) }
    {
        self.joined.insert(p);
    }

    pub(crate) fn note_left(&mut self, p: u8)
        ensures { shown_known self.new ≡ note_left p (shown_known self.old) }
    {
        self.left.insert(p);
    }

    // Adds each of the other's three sets.
    pub(crate) fn add(&mut self, other: &Known<Stations>)
        ensures { shown_known self.new ≡ add_known (shown_known self.old) (shown_known other.now) }
    {
        self.entered.add_all(&other.entered);
        self.joined.add_all(&other.joined);
        self.left.add_all(&other.left);
    }

    // How many have entered and not left. Not one method with `members` that takes the set: each is a number of its own in the
    // rules, this one the bound of who joins, the other the base of a poll.
    pub(crate) fn present(&self) -> u16
        ensures value { result ≡ present_count (shown_known self.now) }
        ensures bound { result ≤ 256 }
    {
        self.entered.count_without(&self.left)
    }

    // How many have joined and not left.
    pub(crate) fn members(&self) -> u16
        ensures value { result ≡ member_count (shown_known self.now) }
        ensures bound { result ≤ 256 }
    {
        self.joined.count_without(&self.left)
    }
}
