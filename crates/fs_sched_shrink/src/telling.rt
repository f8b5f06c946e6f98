//! The text of what is said of a run.

ghost use Rattle.std.specs.Prelude.{◌≡◌, ◌++◌, IfOk, OnOk, codes, [], if◌then◌else◌};
ghost use Rattle.std.specs.List.{join_with_byte};
ghost use Rattle.fs_text.specs.Journal.{reply_words};
ghost use Rattle.fs_sched_shrink.specs.Telling.{call_text, clause_text, clauses_text, condition_text, more_text, others_text, what_text};

use fs_calls::Reply;
use fs_sched_find::{CallName, Clause, Clauses, Condition};
use fs_text::write_reply;
use fs_words::Addition;
use std::alloc::{AllocError, Global};

fn push_call(call: &CallName, text: &mut Addition) -> Result<(), AllocError>
    ensures added { OnOk result (text.new.added ≡ text.old.added ++ call_text call.now) }
    ensures before { text.new.before ≡ text.old.before }
{
    text.push(call.thread.as_slice())?;
    text.push_with_number(b"#", call.place)
}

/// A word, and a call behind it.
fn push_word(word: &[u8], call: &CallName, text: &mut Addition) -> Result<(), AllocError>
    ensures added { OnOk result (text.new.added ≡ text.old.added ++ (word.now ++ call_text call.now)) }
    ensures before { text.new.before ≡ text.old.before }
{
    text.push(word)?;
    push_call(call, text)
}

fn reply_text(alloc: Global, reply: &Reply) -> Result<Vec<u8>, AllocError>
    ensures { IfOk result (λ text. text.items ≡ join_with_byte 32 (reply_words reply.now)) }
{
    let mut text = Vec::new(alloc);
    write_reply(alloc, reply, &mut text)?;
    Ok(text)
}

fn push_condition(
    alloc: Global,
    condition: &Condition,
    text: &mut Addition,
) -> Result<(), AllocError>
    ensures added { OnOk result (text.new.added ≡ text.old.added ++ condition_text condition.now) }
    ensures before { text.new.before ≡ text.old.before }
{
    match condition {
        Condition::Reply(call, reply) => {
            let reply = reply_text(alloc, reply)?;
            push_word(b"reply ", call, text)?;
            text.push(b" ")?;
            text.push(reply.as_slice())
        }
        Condition::Fails(call) => {
            push_word(b"reply ", call, text)?;
            text.push(b" failed")
        }
        Condition::Line(line) => {
            text.push(b"tree ")?;
            text.push(line.as_slice())
        }
        Condition::Helped(call) => push_word(b"helped ", call, text),
        Condition::Waits(call) => push_word(b"waits ", call, text),
        Condition::Before(call, other) => {
            push_word(b"before ", call, text)?;
            push_word(b" ", other, text)
        }
        Condition::Overlap(call, other) => {
            push_word(b"overlap ", call, text)?;
            push_word(b" ", other, text)
        }
    }
}

fn push_not(negated: bool, text: &mut Addition) -> Result<(), AllocError>
    ensures added { OnOk result (text.new.added ≡ text.old.added ++ (if negated then codes "not " else [])) }
    ensures before { text.new.before ≡ text.old.before }
{
    if negated {
        return text.push(b"not ");
    }
    Ok(())
}

fn push_clause(alloc: Global, clause: &Clause, text: &mut Addition) -> Result<(), AllocError>
    ensures added { OnOk result (text.new.added ≡ text.old.added ++ clause_text clause.now) }
    ensures before { text.new.before ≡ text.old.before }
{
    push_not(clause.negated, text)?;
    push_condition(alloc, &clause.condition, text)
}

/// Clauses, each behind the word `and`.
fn push_more(alloc: Global, clauses: &[Clause], text: &mut Addition) -> Result<(), AllocError>
    ensures added { OnOk result (text.new.added ≡ text.old.added ++ more_text clauses.now) }
    ensures before { text.new.before ≡ text.old.before }
{
    for clause in clauses {
        text.push(b" and ")?;
        push_clause(alloc, clause, text)?;
    }
    Ok(())
}

/// Clauses with the word `and` between two.
fn push_clauses(alloc: Global, clauses: &[Clause], text: &mut Addition) -> Result<(), AllocError>
    ensures added { OnOk result (text.new.added ≡ text.old.added ++ clauses_text clauses.now) }
    ensures before { text.new.before ≡ text.old.before }
{
    if let [first, more @ ..] = clauses {
        push_clause(alloc, first, text)?;
        push_more(alloc, more, text)?;
    }
    Ok(())
}

/// Alternatives, each behind the word `or`.
fn push_others(alloc: Global, what: &[Clauses], text: &mut Addition) -> Result<(), AllocError>
    ensures added { OnOk result (text.new.added ≡ text.old.added ++ others_text what.now) }
    ensures before { text.new.before ≡ text.old.before }
{
    for clauses in what {
        text.push(b" or ")?;
        push_clauses(alloc, clauses.as_slice(), text)?;
    }
    Ok(())
}

/// The text of what is said, as `read_what` of `fs_sched_find` reads it.
pub(crate) fn what_text(alloc: Global, what: &[Clauses]) -> Result<Vec<u8>, AllocError>
    ensures { IfOk result (λ text. text.items ≡ what_text what.now) }
{
    let mut text = Addition::new(Vec::new(alloc));
    if let [first, more @ ..] = what {
        push_clauses(alloc, first.as_slice(), &mut text)?;
        push_others(alloc, more, &mut text)?;
    }
    Ok(text.kept())
}
