//! Why a schedule is not written.

ghost use Rattle.fs_embed.specs.Statuses.{IsRefusal};
ghost use Rattle.atomfs_c.specs.ToolTexts.{IsToldNoSchedule};

use fs_embed::status::TOO_LARGE;
use fs_embed::told::tell_fault;
use fs_trace::ScheduleFault;

/// The status of a script that does not get the events of a run as its words, and what it is about.
pub fn tell_no_schedule(fault: ScheduleFault, count: &mut usize) -> u8
    ensures told { IsToldNoSchedule fault result count.new }
    ensures refused { IsRefusal result }
{
    match fault {
        ScheduleFault::Run(fault) => tell_fault(fault, count),
        ScheduleFault::TooManyEvents | ScheduleFault::TooLong => {
            *count = 0;
            TOO_LARGE
        }
    }
}
