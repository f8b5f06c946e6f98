//! The pending calls.

ghost use Rattle.std.specs.Prelude.{◌≡◌, ◌+◌, ◌++◌, ◌∷◌, [], ℕ, List, Some, drop, slice_get, IfOk, OnOk};
ghost use Rattle.fs_linearize_histories.specs.Histories.{IsHistory};
ghost use Rattle.fs_linearize_histories.specs.declared.heard.Heard.{Heard as Value};
ghost use Rattle.fs_linearize_configurations.specs.code.Calls.{AreUnderWay, without_call};

use crate::heard;
use fs_calls::Call;
use fs_linearize_histories::{Heard, Pattern};
use std::alloc::{AllocError, Global};

/// A call that has begun and has not returned.
#[derive(Drop, Clone, Copy)]
pub struct UnderWay<'a> {
    pub number: u64,
    pub call: &'a Call,
    /// What is known of its reply, if it returns.
    pub known: Option<&'a Pattern>,
}

/// The calls without that of a number.
fn without<'a>(
    alloc: Global,
    calls: &[UnderWay<'a>],
    number: u64,
) -> Result<Vec<UnderWay<'a>>, AllocError>
    ensures { IfOk result (λ rest. rest.items ≡ without_call number calls.now) }
{
    let mut rest = Vec::new(alloc);
    for call in calls {
        if number != call.number {
            rest.push(*call)?;
        }
    }
    Ok(rest)
}

/// The pending calls after an entry, the first of those that are left.
pub fn after<'a>(
    alloc: Global,
    calls: Vec<UnderWay<'a>>,
    entry: &'a Heard,
    left: &'a [Heard],
) -> Result<Vec<UnderWay<'a>>, AllocError>
    ensures { IfOk result (λ after. (h : List Value) (place : ℕ) → IsHistory h → slice_get h place ≡ Some entry.now → left.now ≡ drop place h
        → AreUnderWay h place calls.entry.items → AreUnderWay h (place + 1) after.items) }
{
    match entry {
        Heard::Begin(number, _, call) => {
            let known = heard::recorded(left, number.get());
            let mut all = calls;
            all.push(UnderWay {
                number: number.get(),
                call,
                known,
            })?;
            Ok(all)
        }
        Heard::Return(number, _) => Ok(without(alloc, &calls, number.get())?),
    }
}
