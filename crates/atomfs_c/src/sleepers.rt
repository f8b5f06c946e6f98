//! Which calls sleep for which node, as C keeps it for a tree that threads share.
//!
//! C has the lock, and a list of the calls that sleep in each queue (`embed/shared.c`). After a step it learns here in which queue a call
//! that waits is to sleep, and whom of a queue it has to wake if a node was let go. `fs_share_wait` decides both, as for threads in Rattle.

ghost use Rattle.std.specs.Prelude.{◌≡◌, ◌≢◌, ◌<◌, ◌≤◌, ◌⊎◌, ◌%◌, ℕ, Some, length, slice_get};
ghost use Rattle.fs_share_wait.specs.Sleeping.{Notes, Covers, one_more, woken_for, IsEnough, IsDue};
ghost use Rattle.fs_embed.specs.Statuses.{IsRefusal};
ghost use Rattle.atomfs_c.specs.Exports.{Goes, ToldIfClosed, IsLawful, IsSpelled};
ghost use Rattle.atomfs_c.specs.Sleepers.{queue_in, queues_in, whom_of, Wakes, Follows, StepsAmong};

use crate::handles::{Handle, put, take};
use fs_core::Stepped;
use fs_embed::status::{CLOSED, NO_SEAT, OK};
use fs_embed::{StepTold, step_of};
use fs_names::SeatNo;
use fs_nodes::NodeNo;
use fs_share_wait::{Queue, Wake, queue_of};
use std::alloc::Global;

/// What is noted of the calls that sleep in a queue: there are at most so many, and all want this node, unless they want several.
/// If all is 0, none sleeps.
#[repr(C)]
#[derive(Clone, Copy, Drop)]
pub struct Noted {
    pub node: u64,
    pub most: u64,
    pub for_several: bool,
}

/// What is noted of each queue.
#[repr(C)]
#[derive(Drop)]
pub struct Asleep {
    pub queues: [Noted; 64],
}

/// What a step did, as numbers, and what follows from it for calls that sleep. If the call waits, it is to sleep in this queue. If
/// it let a node go, `whom` says whom of this queue C has to wake, as one of `ATOMFS_WAKE_`.
#[repr(C)]
#[derive(Clone, Copy, Drop)]
pub struct Went {
    pub did: u8,
    pub whom: u8,
    pub about: u64,
    pub queue: u64,
}

impl Noted {
    /// The queue of which this is noted.
    fn queue(&self) -> Queue
        ensures { result ≡ queue_in self.now }
    {
        if self.for_several {
            Queue::ForSeveral
        } else if self.most == 0 {
            Queue::Empty
        } else {
            Queue::ForOne(NodeNo::new(self.node as usize), self.most)
        }
    }

    /// What is noted of a queue.
    fn of(queue: &Queue) -> Noted
        ensures { (other slept : ℕ) → Notes queue.now other slept → Notes (queue_in result) other slept }
    {
        let (node, most, for_several) = match queue {
            Queue::Empty => (0, 0, false),
            Queue::ForOne(node, most) => (node.get() as u64, *most, false),
            Queue::ForSeveral => (0, 0, true),
        };
        Noted {
            node,
            most,
            for_several,
        }
    }
}

/// The number of whom a free node wakes.
fn whom(wake: Wake) -> u8
    ensures { result ≡ whom_of wake }
{
    match wake {
        Wake::Nobody => 0,
        Wake::One => 1,
        Wake::All => 2,
    }
}

impl Asleep {
    /// A call goes to sleep for a node; the queue in which it sleeps.
    fn sleep(&mut self, node: NodeNo) -> usize
        ensures queue { result ≡ node % 64 }
        ensures bound { result < 64 }
        ensures noted { (sleeping : ℕ → ℕ) → Covers (queues_in self.old.queues) sleeping → Covers (queues_in self.new.queues) (λ other. one_more node other (sleeping other)) }
    {
        let at = queue_of(node);
        let joined = self.queues[at].queue().joined(node);
        self.queues[at] = Noted::of(&joined);
        at
    }

    /// Whom a free node wakes. C wakes them before anybody else comes to the queues.
    fn wake(&mut self, node: NodeNo) -> Wake
        ensures due { (queue : Queue) → slice_get (queues_in self.old.queues) (node % 64) ≡ Some queue → IsDue result queue node }
        ensures enough { (sleeping : ℕ → ℕ) → Covers (queues_in self.old.queues) sleeping → (other : ℕ) → other % 64 ≡ node % 64 → IsEnough result node other (sleeping other) }
        ensures left { (sleeping : ℕ → ℕ) → Covers (queues_in self.old.queues) sleeping → Covers (queues_in self.new.queues) (woken_for result node sleeping) }
    {
        let at = queue_of(node);
        let (wake, left) = self.queues[at].queue().woken(node);
        self.queues[at] = Noted::of(&left);
        wake
    }

    /// A step is noted: a call that waits sleeps for its node, and a node that was let go wakes those who are due.
    fn follow(&mut self, stepped: &Stepped) -> Went
        ensures { Follows stepped.now result self.old.queues self.new.queues }
    {
        let StepTold { code, about } = StepTold::of(stepped);
        let (queue, whom) = match stepped {
            Stepped::Busy(node, _) => (self.sleep(*node), 0),
            Stepped::LetGo(node) => (queue_of(*node), whom(self.wake(*node))),
            _ => (0, 0),
        };
        Went {
            did: code,
            whom,
            about,
            queue: queue as u64,
        }
    }
}

/// Whom a node wakes that was let go, as a number, and in which queue they sleep.
#[unsafe(no_mangle)]
pub extern "C" fn atomfs_wakes(asleep: &mut Asleep, node: u64, queue: &mut u64) -> u8
    ensures queue { queue.new ≡ node % 64 }
    ensures wakes { Wakes node result asleep.old.queues asleep.new.queues }
{
    let node = NodeNo::new(node as usize);
    *queue = queue_of(node) as u64;
    whom(asleep.wake(node))
}

/// Does one step of the call on a seat, as `atomfs_step` does, and notes what follows from it for calls that sleep. If the call waits,
/// it is noted as one that sleeps for the node that it wants, and C puts it into the queue that is reported.
#[unsafe(no_mangle)]
pub extern "C" fn atomfs_step_among(
    alloc: Global,
    handle: &mut Handle,
    seat: u64,
    asleep: &mut Asleep,
    went: &mut Went,
) -> u8
    ensures only { (result ≡ OK) ⊎ (result ≡ CLOSED) ⊎ (result ≡ NO_SEAT) }
    ensures untouched { result ≢ OK → (went.new ≡ went.old) × (asleep.new ≡ asleep.old) }
    ensures stepped { result ≡ OK → Goes (λ old new. StepsAmong old seat went.new asleep.old.queues asleep.new.queues new) handle.old.held.core handle.new.held.core }
    ensures refused { IsRefusal result → Goes (λ old new. (result ≡ NO_SEAT) × (length old.seats ≤ seat) × (new ≡ old)) handle.old.held.core handle.new.held.core }
    ensures closed { ToldIfClosed result handle.old.held.core handle.new.held.core }
    ensures lawful { IsLawful handle.new.held.core }
    ensures spelled { IsSpelled handle.new.held.core }
    ensures keeps { handle.new.most ≡ handle.old.most }
{
    let Some(mut core) = take(alloc, handle) else {
        return CLOSED;
    };
    let stepped = step_of(&mut core, SeatNo::new(seat));
    put(handle, core);
    match stepped {
        Some(stepped) => {
            *went = asleep.follow(&stepped);
            OK
        }
        None => NO_SEAT,
    }
}
