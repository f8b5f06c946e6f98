//! What readers take a copy of, and the rule between them and the writer.

ghost use Rattle.std.specs.Prelude.{◌≡◌, ◌+◌};

use crate::history::Token;
use atomic_table::{Join, Split};
use crossbeam_utils::rule::{Outcome, Protocol};
use fs_calls::Call;
use fs_seq::SeqTree;
use left_right::Absorb;
use std::alloc::{AllocError, Global};
use std::collections::LinkedList;

/// A call that is to be played, and the history up to it.
#[derive(Drop)]
pub(crate) struct Op {
    pub call: Call,
    pub token: Token,
}

/// A tree, how many calls were played on it, and which.
#[derive(Drop)]
pub(crate) struct Shown {
    pub tree: SeqTree,
    pub count: u64,
    pub token: Token,
    pub alloc: Global,
}

impl Absorb<Op> for Shown {
    ghost use Rattle.fs_share_observe.specs.Playing.{after};

    type State = Shown;

    ghost state = { λ s. s };

    ghost applied = { after };

    fn absorb_first(&mut self, operation: &Op, _other: &Shown) -> Result<(), AllocError> {
        if self.count == u64::MAX {
            return Err(AllocError);
        }
        self.tree.apply(self.alloc, &operation.call)?;
        self.count += 1;
        self.token = operation.token.again();
        Ok(())
    }
}

/// What a seat knows: tokens of the history that is shown. No value of it is made.
pub(crate) type Known = LinkedList<Token>;

/// What is shown is the tree that the calls of its token play, and each seat's tokens are of that history.
pub(crate) struct Rule;

impl Protocol<Shown, Known> for Rule {
    ghost use Rattle.std.specs.Prelude.{[]};
    ghost use Rattle.fs_share_observe.specs.Playing.{Keeps};

    ghost holds = { Keeps };

    ghost first = { [] };
}

/// A look at what is shown.
pub(crate) struct Sees;

impl Outcome<Shown, Known> for Sees {
    ghost use Rattle.fs_share_observe.specs.Playing.{Looks};

    ghost then = { Looks };
}

/// A publishing.
pub(crate) struct Publishes;

impl Outcome<Shown, Known> for Publishes {
    ghost use Rattle.std.specs.Prelude.{◌≡◌, ◌∷◌, []};

    ghost then = { λ v x y w. w ≡ y.token ∷ [] };
}

/// The writer says to a reader which history it is.
pub(crate) struct Tells;

impl Split<Known> for Tells {
    ghost left = { λ v. v };

    ghost right = { λ v. v };
}

impl Join<Known> for Tells {
    ghost use Rattle.std.specs.Prelude.{[]};

    ghost both = { λ v w. w };

    ghost spent = { [] };
}
