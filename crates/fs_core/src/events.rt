//! Lists of events on a core, and the linearization theorem of all of them.

ghost use Rattle.std.specs.Prelude.{◌≡◌, ◌≢◌, All, Err, Some, IfErr, OnOk, length};
ghost use Rattle.fs_machine.specs.declared.answers.Refusal.TheVariants.{OutOfMemory};
ghost use Rattle.fs_nodes.specs.Graphs.{graph_shapes};
ghost use Rattle.fs_nodes.specs.Stores.{graph_of};
ghost use Rattle.fs_calls.specs.Outcomes.{play};
ghost use Rattle.fs_calls.specs.Sights.{tree_shapes};
ghost use Rattle.fs_timeline.specs.Timeline.{IsLawful, commits};
ghost use Rattle.fs_linearizable.specs.Linearizable.{history, IsLinearizable};
ghost use Rattle.fs_core.specs.Events.{IsSeated, Happens, IsRefused, IsRun};
ghost use Rattle.fs_core.specs.CoreValues.{state_of, IsAtRest};

use crate::engine::Core;
use crate::outcome::{Event, Ran};
use fs_machine::Refusal;
use std::alloc::Global;

impl Core {
    /// One event. A begin may be refused: then there is no entry, and nothing has changed.
    fn happen(&mut self, alloc: Global, event: &Event) -> Result<(), Refusal>
        requires seated { IsSeated (length self.old.seats) event.now }
        ensures done { OnOk result (Happens (state_of self.old) event.now (state_of self.new)) }
        ensures refused { IfErr result (λ refusal. IsRefused (state_of self.old) event.now refusal (state_of self.new)) }
        ensures seats { length self.new.seats ≡ length self.old.seats }
        ensures granted { result ≢ Err OutOfMemory → self.new.refusals ≡ self.old.refusals }
        ensures memory { result ≡ Err OutOfMemory → self.new.refusals ≢ self.old.refusals }
    {
        match event {
            Event::Begin(seat, call) => {
                self.begin(alloc, *seat, call)?;
                Ok(())
            }
            Event::Step(seat) => {
                let _ = self.step(*seat);
                Ok(())
            }
        }
    }

    /// The events in order, up to the first begin that is refused.
    pub fn run(&mut self, alloc: Global, events: &[Event]) -> Ran
        requires seated { All (IsSeated (length self.old.seats)) events.now }
        ensures run { IsRun (state_of self.old) events.now result.done result.refusal (state_of self.new) }

        // The linearization theorem: well formed with lawful replies, and spelled at rest.
        ensures lawful { IsLawful self.new.start self.new.timeline }
        ensures linearizable { IsLinearizable self.new.start (history self.new.timeline) }
        ensures spelled { IsAtRest self.new → graph_shapes (graph_of self.new.store) ≡ tree_shapes (play self.new.start (commits self.new.timeline)) }
        ensures seats { length self.new.seats ≡ length self.old.seats }
        ensures granted { result.refusal ≢ Some OutOfMemory → self.new.refusals ≡ self.old.refusals }
        ensures refused { result.refusal ≡ Some OutOfMemory → self.new.refusals ≢ self.old.refusals }
    {
        for i in 0..events.len() {
            match self.happen(alloc, &events[i]) {
                Ok(()) => {}
                Err(refusal) => {
                    self.told();
                    return Ran {
                        done: i,
                        refusal: Some(refusal),
                    };
                }
            }
        }
        self.told();
        Ran {
            done: events.len(),
            refusal: None,
        }
    }
}
