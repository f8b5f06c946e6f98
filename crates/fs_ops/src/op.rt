//! A pending call.

ghost use Rattle.std.specs.Prelude.{◌≡◌, is_some, option_map};
ghost use Rattle.fs_calls.specs.Forms.{by_paths};

use crate::outcome::Outcome;
use crate::stand::Stand;
use fs_calls::{Call, Errno};
use fs_names::Limits;
use fs_nodes::NodeNo;
use std::marker::Model;

/// A pending call: a machine of moves over the nodes of a store, which allocates what it needs when it begins.
#[derive(Drop)]
pub struct Op {
    pub(crate) call: Call,
    // The error that its paths alone decide: it is found once, when the call begins.
    pub(crate) path_error: Option<Errno>,
    // The limits of the tree on which it runs.
    pub(crate) limits: Limits,
    pub(crate) stand: Stand,
    pub(crate) reserved: Option<NodeNo>,
    pub(crate) removed: Option<NodeNo>,
    pub(crate) outcome: Outcome,
}

impl Model for Op {
    ghost use Rattle.fs_machine.specs.OpValues.{OpValue};
    ghost use Rattle.fs_ops.specs.OpValue.{op_value, with_held, IsOp};

    ghost Value = { OpValue };

    ghost view = { λ o. with_held o.outcome (op_value o.limits o.call o.stand o.reserved o.removed o.outcome) };

    ghost invariant = { λ o. IsOp o.limits o.call o.path_error o.stand o.outcome };
}

impl Op {
    /// The node that the call has reached. One with two heads on their way is at its common directory. None: it holds
    /// nothing.
    pub fn position(&self) -> Option<NodeNo>
        ensures { result ≡ option_map (λ st. st.node) self.now.holdings }
    {
        match &self.outcome {
            Outcome::Open(_) => self.stand.walk.node(),
            Outcome::Fixed(_, held) => held.first(),
        }
    }

    /// The number that the call has reserved, until it is used.
    pub fn reserved(&self) -> Option<NodeNo>
        ensures { result ≡ self.now.reserved }
    {
        self.reserved
    }

    /// Whether its paths alone decide its error, so that it takes no node.
    pub fn is_decided(&self) -> bool
        ensures { result ≡ is_some (by_paths self.now.call) }
    {
        self.path_error.is_some()
    }

    /// Whether its reply is fixed.
    pub fn is_finished(&self) -> bool
        ensures { result ≡ is_some self.now.reply }
    {
        matches!(self.outcome, Outcome::Fixed(_, _))
    }
}
