//! What a history says of the reply of a call.

ghost use Rattle.std.specs.Prelude.{◌≡◌, option_copied};
ghost use Rattle.fs_linearize_histories.specs.Histories.{returned_as, recorded};

use fs_linearize_histories::{Heard, Pattern};

/// What an entry says of the reply of the call of a number.
fn returned_as(entry: &Heard, number: u64) -> Option<&Pattern>
    ensures { option_copied result ≡ returned_as number entry.now }
{
    match entry {
        Heard::Return(returned, pattern) if returned.get() == number => Some(pattern),
        _ => None,
    }
}

/// What is known of the reply of the call of a number, if it has returned.
pub(crate) fn recorded(history: &[Heard], number: u64) -> Option<&Pattern>
    ensures { option_copied result ≡ recorded number history.now }
{
    for entry in history {
        let pattern = returned_as(entry, number);
        if pattern.is_some() {
            return pattern;
        }
    }
    None
}
