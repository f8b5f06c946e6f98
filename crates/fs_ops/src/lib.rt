//! A pending call as a value: `Op`.
//!
//! `Prepared::new` allocates all that its call can need, and reserves a number for a node that it may add. `Prepared::open` makes it the
//! pending call. From then on `Op::next` answers the next move, and the caller reports what came of it with `took`, `let_go`, `carry_out`
//! and, at last, `end`. Each of these does what the machine's definitions say, and none of them needs memory. `next` finds once what a
//! finish does: its plan is handed to `carry_out`, which decides nothing. From then on the call keeps a list of what it holds, and unlocks
//! first the node that it took last. An `Op` knows of no other call: `fs_core` decides who holds a node, and whom a call helps.
//!
//! Enter at `Prepared::new` and `Op::next`, or at `Op::begin` (`whole`) if nothing needs room in between. The contracts cite the
//! definitions `fs_machine/specs/OpValues.antt` and `Moves.antt`, and for plans `specs/PlanOf.antt` here. `specs/OpValue.antt` says what
//! the fields of an `Op` are in these words. `specs/code/` ties the code to them, and changes no meaning. The modules are named after what
//! they do: `begin`, `next`, `take`, and so on.
#![tactic(auto)]

mod begin;
mod carry_out;
mod end;
mod let_go;
pub mod next;
pub mod op;
mod outcome;
pub mod prepared;
mod stand;
mod take;
mod whole;

pub use next::Next;
pub use op::Op;
pub use prepared::Prepared;
