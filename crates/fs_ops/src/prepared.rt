//! A call before it begins, with all that it needs to its end.

ghost use Rattle.std.specs.Prelude.{◌≡◌, None};
ghost use Rattle.fs_nodes.specs.Seen.{seen};
ghost use Rattle.fs_nodes.specs.Stores.{graph_of};
ghost use Rattle.fs_machine.specs.Leaving.{unreserved};
ghost use Rattle.fs_machine.specs.OpValues.{SpareIf};

use crate::begin::target_len;
use crate::end::give_back;
use crate::op::Op;
use crate::outcome::Outcome;
use crate::stand::Stand;
use fs_calls::Call;
use fs_names::Limits;
use fs_nodes::{NodeNo, Store};
use fs_ops_effects::room::Room;
use fs_walk::Walk;
use std::marker::Model;

/// A call with its reserved number and its room. It is seen as the call that it opens, and is a third of its size.
#[derive(Drop)]
pub struct Prepared {
    pub(crate) call: Call,
    pub(crate) limits: Limits,
    pub(crate) reserved: Option<NodeNo>,
    pub(crate) room: Room,
}

impl Model for Prepared {
    ghost use Rattle.fs_names.specs.Limits.{in_blocks};
    ghost use Rattle.fs_calls.specs.Forms.{form};
    ghost use Rattle.fs_ops_effects.specs.Rooms.{Suffices};
    ghost use Rattle.fs_machine.specs.OpValues.{OpValue, new_value};

    ghost Value = { OpValue };

    ghost view = { λ p. new_value p.limits p.call p.reserved };

    ghost invariant = { λ p. Suffices (in_blocks p.limits) (form p.limits p.call) p.room };
}

impl Prepared {
    /// The number that the call has reserved.
    pub fn reserved(&self) -> Option<NodeNo>
        ensures { result ≡ self.now.reserved }
    {
        self.reserved
    }

    /// Gives its reserved number back.
    pub fn cancel(self, store: &mut Store)
        requires { SpareIf (graph_of store.old) self.reserved }
        ensures { seen store.new ≡ record (seen store.old) { graph = unreserved self.reserved (graph_of store.old) } }
    {
        give_back(store, self.reserved());
    }

    /// The pending call, which holds nothing yet.
    #[inline]
    pub fn open(self) -> Op
        ensures { result ≡ self }
    {
        let Prepared {
            call,
            limits,
            reserved,
            room,
        } = self;
        let path_error = call.error_by_paths();
        let walk = Walk::new(target_len(call.target()));
        Op {
            call,
            path_error,
            limits,
            stand: Stand {
                walk,
                fork: None,
                victim: None,
            },
            reserved,
            removed: None,
            outcome: Outcome::Open(room),
        }
    }
}
