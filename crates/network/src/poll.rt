// A poll: one phase of an operation asks other stations, and counts their replies.
ghost use Rattle.std.specs.Prelude.{◌≡◌, true};
ghost use Rattle.network.specs.Limits.{may_rise};
ghost use Rattle.network.specs.Polls.{new_poll, with_reply, quorum};

use settings::Choice;

#[derive(Clone, Copy)]
pub struct Poll {
    // the tag of its operation, which replies repeat
    pub tag: u32,
    // how many members its station knew as it began
    pub base: u16,
    pub replies: u32,
}

impl Poll {
    // Nobody has replied.
    pub(crate) fn begin(tag: u32, base: u16) -> Poll
        ensures { result ≡ new_poll tag base }
    {
        Poll {
            tag,
            base,
            replies: 0,
        }
    }

    pub(crate) fn can_rise(&self) -> bool
        ensures { result ≡ may_rise self.now.replies }
    {
        self.replies < u32::MAX
    }

    // One reply more.
    pub(crate) fn rise(&mut self)
        requires { may_rise self.old.replies ≡ true }
        ensures { self.new ≡ with_reply self.old }
    {
        self.replies += 1;
    }

    // Whether the replies are the share of the base that ends it.
    pub(crate) fn is_quorum(&self, choice: &Choice) -> bool
        ensures { result ≡ quorum choice.now self.now }
    {
        100 * self.replies as u64 >= choice.beta as u64 * self.base as u64
    }
}
