//! What a run may have.

ghost use Rattle.std.specs.Prelude.{◌≡◌, Some, None, nat_le, length, get_or, ◌&&◌};
ghost use Rattle.std.specs.List.{list_all};
ghost use Rattle.fs_script.specs.declared.script.Script.{Script};
ghost use Rattle.fs_sched_find.specs.What.{is_there, has_calls, clauses_name_calls, names_calls};

use fs_calls::Reply;
use fs_names::Bytes;
use fs_script::Script;
use std::marker::Model;

/// A call of a script: the name of its thread, and its place in the block of that, from 1.
#[derive(Drop)]
pub struct CallName {
    pub thread: Bytes,
    pub place: u64,
}

/// What is said of a run.
#[derive(Drop)]
pub enum Condition {
    /// The call returned this reply.
    Reply(CallName, Reply),
    /// The call returned an error.
    Fails(CallName),
    /// At the end this is a line of the tree text.
    Line(Bytes),
    /// The step of another call committed this one.
    Helped(CallName),
    /// The call waited for a node that another one held.
    Waits(CallName),
    /// The first call committed, and the second behind it.
    Before(CallName, CallName),
    /// Both calls began, and neither had returned when the other began.
    Overlap(CallName, CallName),
}

/// A condition, or its contrary.
#[derive(Drop)]
pub struct Clause {
    pub negated: bool,
    pub condition: Condition,
}

/// Clauses that a run has together: an alternative of what is said of it. They are seen as their list.
#[derive(Drop)]
pub struct Clauses {
    items: Vec<Clause>,
}

impl Model for Clauses {
    ghost use Rattle.std.specs.Prelude.{List};
    ghost use Rattle.fs_sched_find.specs.declared.what.Clause.{Clause};

    ghost Value = { List Clause };

    ghost view = { λ c. c.items.items };
}

impl Clauses {
    /// The clauses of a vector, which is kept and not copied.
    pub fn new(items: Vec<Clause>) -> Clauses
        ensures { result ≡ items.items }
    {
        Clauses { items }
    }

    /// The clauses, in order.
    pub fn as_slice(&self) -> &[Clause]
        ensures { result.now ≡ self.now }
    {
        self.items.as_slice()
    }
}

/// Whether a script has the call.
fn is_there(script: &Script, call: &CallName) -> bool
    ensures { result ≡ is_there script.now call.now }
{
    match script.names.seat(call.thread.as_slice()) {
        Some(seat) => 1 <= call.place && call.place <= script.lists.of(seat).len() as u64,
        None => false,
    }
}

fn has_calls(script: &Script, condition: &Condition) -> bool
    ensures { result ≡ has_calls script.now condition.now }
{
    match condition {
        Condition::Line(_) => true,
        Condition::Reply(call, _)
        | Condition::Fails(call)
        | Condition::Helped(call)
        | Condition::Waits(call) => is_there(script, call),
        Condition::Before(call, other) | Condition::Overlap(call, other) => {
            is_there(script, call) && is_there(script, other)
        }
    }
}

/// Whether a script has each call that clauses name.
fn clauses_name_calls(script: &Script, clauses: &[Clause]) -> bool
    ensures { result ≡ clauses_name_calls script.now clauses.now }
{
    clauses
        .iter()
        .all(|clause| has_calls(script, &clause.condition))
}

/// Whether a script has each call that is named.
pub fn names_calls(script: &Script, what: &[Clauses]) -> bool
    ensures { result ≡ names_calls script.now what.now }
{
    what.iter()
        .all(|clauses| clauses_name_calls(script, clauses.as_slice()))
}
