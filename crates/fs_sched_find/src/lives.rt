//! What a run tells of its threads' calls.

ghost use Rattle.std.specs.Prelude.{◌≡◌, ◌-◌, OnOk, slice_index};
ghost use Rattle.fs_sched_find.specs.Lives.{unlived, with_begin, with_commit, with_step, with_answer, with_moment, lived};

use fs_calls::Reply;
use fs_core::{Core, Stepped};
use fs_names::CallNo;
use fs_sched_witness::{Answer, Moment, Told, Witness};
use std::alloc::{AllocError, Global};
use std::marker::Model;

/// The begins, commits and replies of a run's calls so far, by the seats of their threads.
#[derive(Drop)]
pub(crate) struct Lives {
    owners: Vec<usize>,
    begin_seats: Vec<usize>,
    returned_before: Vec<usize>,
    waits: Vec<(usize, usize)>,
    commit_seats: Vec<usize>,
    helped: Vec<bool>,
    reply_seats: Vec<usize>,
    replies: Vec<Reply>,
}

impl Model for Lives {
    ghost use Rattle.fs_sched_find.specs.Lives.{Lived};

    ghost Value = { Lived };

    ghost view = { λ l. record { owners = l.owners.items; begin_seats = l.begin_seats.items; returned_before = l.returned_before.items; waits = l.waits.items; commit_seats = l.commit_seats.items; helped = l.helped.items; reply_seats = l.reply_seats.items; replies = l.replies.items } };
}

impl Lives {
    /// Before the first moment.
    pub(crate) fn new(alloc: Global) -> Lives
        ensures { result ≡ unlived }
    {
        Lives {
            owners: Vec::new(alloc),
            begin_seats: Vec::new(alloc),
            returned_before: Vec::new(alloc),
            waits: Vec::new(alloc),
            commit_seats: Vec::new(alloc),
            helped: Vec::new(alloc),
            reply_seats: Vec::new(alloc),
            replies: Vec::new(alloc),
        }
    }

    /// The seats of the calls that began, in order.
    pub(crate) fn begin_seats(&self) -> &[usize]
        ensures { result.now ≡ self.now.begin_seats }
    {
        self.begin_seats.as_slice()
    }

    /// How many calls had returned when each of these began.
    pub(crate) fn returned_before(&self) -> &[usize]
        ensures { result.now ≡ self.now.returned_before }
    {
        self.returned_before.as_slice()
    }

    /// The seats of calls that waited, and how many calls had returned then.
    pub(crate) fn waits(&self) -> &[(usize, usize)]
        ensures { result.now ≡ self.now.waits }
    {
        self.waits.as_slice()
    }

    /// The seats of the calls that committed, in order.
    pub(crate) fn commit_seats(&self) -> &[usize]
        ensures { result.now ≡ self.now.commit_seats }
    {
        self.commit_seats.as_slice()
    }

    /// Whether another call's step was the commit, of each.
    pub(crate) fn helped(&self) -> &[bool]
        ensures { result.now ≡ self.now.helped }
    {
        self.helped.as_slice()
    }

    /// The seats of the calls that returned, in order.
    pub(crate) fn reply_seats(&self) -> &[usize]
        ensures { result.now ≡ self.now.reply_seats }
    {
        self.reply_seats.as_slice()
    }

    /// What each replied.
    pub(crate) fn replies(&self) -> &[Reply]
        ensures { result.now ≡ self.now.replies }
    {
        self.replies.as_slice()
    }

    fn begin(&mut self, seat: usize) -> Result<(), AllocError>
        ensures { OnOk result (self.new ≡ with_begin self.old seat) }
    {
        self.owners.push(seat)?;
        self.begin_seats.push(seat)?;
        self.returned_before.push(self.replies.len())?;
        Ok(())
    }

    fn commit(&mut self, seat: usize, helped: bool) -> Result<(), AllocError>
        ensures { OnOk result (self.new ≡ with_commit self.old seat helped) }
    {
        self.commit_seats.push(seat)?;
        self.helped.push(helped)?;
        Ok(())
    }

    /// The seat of the call under way of this number.
    fn owner(&self, call: CallNo) -> usize
        ensures { result ≡ slice_index self.now.owners (call - 1) }
    {
        let index = call.get().saturating_sub(1) as usize;
        if index < self.owners.len() {
            self.owners[index]
        } else {
            0
        }
    }

    fn step(&mut self, seat: usize, stepped: Stepped) -> Result<(), AllocError>
        ensures { OnOk result (self.new ≡ with_step self.old seat stepped) }
    {
        match stepped {
            Stepped::Busy(_, _) => {
                self.waits.push((seat, self.replies.len()))?;
                Ok(())
            }
            Stepped::Committed => self.commit(seat, false),
            Stepped::Helped(call) => {
                let owner = self.owner(call);
                self.commit(owner, true)
            }
            Stepped::Returned(reply) => {
                self.reply_seats.push(seat)?;
                self.replies.push(reply)?;
                Ok(())
            }
            _ => Ok(()),
        }
    }

    fn event(&mut self, told: Told) -> Result<(), AllocError>
        ensures { OnOk result (self.new ≡ with_answer self.old told.seat told.answer) }
    {
        let Told { seat, answer } = told;
        match answer {
            Answer::Spent => Ok(()),
            Answer::Begun(_) => self.begin(seat),
            Answer::Stepped(stepped) => self.step(seat, stepped),
        }
    }

    fn moment(&mut self, moment: Moment) -> Result<(), AllocError>
        ensures { OnOk result (self.new ≡ with_moment self.old moment) }
    {
        match moment {
            Moment::Event(told) => self.event(told),
            Moment::Checkpoint(_) => {
                self.owners.clear();
                Ok(())
            }
        }
    }
}

impl Witness for Lives {
    ghost Told = { λ _ lives moments. lives ≡ lived moments };

    #[inline(always)]
    fn begins(&mut self, _calls: usize) {}

    #[inline]
    fn saw(&mut self, _core: &Core, moment: Moment) -> Result<(), AllocError> {
        self.moment(moment)
    }

    #[inline(always)]
    fn went_on(&mut self, _events: u64, _entries: usize) {}

    #[inline(always)]
    fn has_run(&mut self, _done: u64, _runs: u64) {}
}
