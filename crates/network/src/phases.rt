// What a station does for its own operation: it begins, counts responses in phase one and acks in phase two.
ghost use Rattle.std.specs.Prelude.{◌≡◌, ◌+◌, true, if◌then◌else◌, Some, None};
ghost use Rattle.network.specs.Changes.{begin};
ghost use Rattle.network.specs.Hearing.{kept_register, begin_two, count_response, count_ack};
ghost use Rattle.network.specs.Keeping.{tag_of, with_operation};
ghost use Rattle.network.specs.Limits.{may_rise, replies_may_rise, can_rise, can_begin};
ghost use Rattle.network.specs.Polls.{with_reply, quorum};
ghost use Rattle.network.specs.Saying.{began_two};
ghost use Rattle.network.specs.Shown.{shown};
ghost use Rattle.network.specs.declared.content.Content.TheVariants.{Response, Ack};
ghost use Rattle.network.specs.declared.operation.Operation.TheVariants.{PhaseOne};

use crate::operation::{Operation, Task};
use crate::poll::Poll;
use crate::register::Register;
use crate::stamp::Stamp;
use crate::station::Station;
use settings::Choice;
use stations::Stations;

impl<R: Copy> Task<R> {
    // What station `me` holds as phase two begins: a write's record under its next stamp.
    fn kept_register(&self, me: u8, held: Register<R>) -> Register<R>
        requires { may_rise held.stamp.count ≡ true }
        ensures { result ≡ kept_register me self.now held }
    {
        match self {
            Task::Read => held,
            Task::Write(value) => Register {
                value: *value,
                stamp: Stamp {
                    count: held.stamp.count + 1,
                    writer: Some(me),
                },
            },
        }
    }
}

impl<R: Copy> Operation<R> {
    fn tag(&self) -> u32
        ensures { result ≡ tag_of self.now }
    {
        match self {
            Operation::Idle { tag } => *tag,
            Operation::PhaseOne { poll, .. } | Operation::PhaseTwo { poll, .. } => poll.tag,
        }
    }

    // Whether its replies can rise, if it counts any.
    pub(crate) fn replies_can_rise(&self) -> bool
        ensures { result ≡ replies_may_rise self.now }
    {
        match self {
            Operation::Idle { .. } => true,
            Operation::PhaseOne { poll, .. } | Operation::PhaseTwo { poll, .. } => poll.can_rise(),
        }
    }
}

impl<R: Copy> Station<R, Stations> {
    // Begins a read or a write, and gives its tag; where tags are used up, nothing changes.
    pub fn begin(&mut self, task: Task<R>) -> Option<u32>
        ensures value { result ≡ (if can_begin (shown self.old) then Some (tag_of self.old.operation + 1) else None) }
        ensures after { shown self.new ≡ (if can_begin (shown self.old) then begin task (shown self.old) else shown self.old) }
    {
        let tag = self.operation.tag().checked_add(1)?;
        let base = self.known.members();
        self.operation = Operation::PhaseOne {
            task,
            poll: Poll::begin(tag, base),
        };
        Some(tag)
    }

    // Begins phase two with its kept record, the base of the members now known, and no replies.
    fn begin_two(&mut self, me: u8, task: Task<R>, tag: u32)
        requires { may_rise self.old.register.stamp.count ≡ true }
        ensures { shown self.new ≡ begin_two me task tag (shown self.old) }
    {
        self.register = task.kept_register(me, self.register);
        self.operation = Operation::PhaseTwo {
            kind: task.kind(),
            poll: Poll::begin(tag, self.known.members()),
            kept: self.register.value,
        };
    }

    // Counts a response in phase one with an equal tag, and says whether phase two began.
    #[tactic(auto, unfolding(crate::specs::Stamps::newer, crate::specs::Limits::can_rise))]
    pub(crate) fn count_response(
        &mut self,
        me: u8,
        offer: Register<R>,
        tag: u32,
        choice: &Choice,
    ) -> bool
        requires { can_rise (shown self.old) (Response offer tag) ≡ true }
        ensures value { result ≡ began_two self.old.operation self.new.operation }
        ensures after { shown self.new ≡ count_response choice.now me offer tag self.old.operation (shown self.old) }
    {
        if let Operation::PhaseOne { task, mut poll } = self.operation {
            if tag == poll.tag {
                self.take_offer(offer);
                poll.rise();
                if poll.is_quorum(choice) {
                    self.begin_two(me, task, poll.tag);
                    return true;
                }
                self.operation = Operation::PhaseOne { task, poll };
            }
        }
        false
    }

    // Counts an ack in phase two with an equal tag: at a quorum the operation ends.
    #[tactic(auto, unfolding(crate::specs::Limits::can_rise))]
    pub(crate) fn count_ack(&mut self, tag: u32, choice: &Choice)
        requires { can_rise (shown self.old) (Ack tag) ≡ true }
        ensures { shown self.new ≡ count_ack choice.now tag self.old.operation (shown self.old) }
    {
        if let Operation::PhaseTwo {
            kind,
            mut poll,
            kept,
        } = self.operation
        {
            if poll.tag == tag {
                poll.rise();
                self.operation = if poll.is_quorum(choice) {
                    Operation::Idle { tag }
                } else {
                    Operation::PhaseTwo { kind, poll, kept }
                };
            }
        }
    }
}
