//! Where a search ends before the end of a history.

ghost use Rattle.std.specs.Prelude.{◌≡◌, true, false, IfSome, IfNone};
ghost use Rattle.fs_linearize_configurations.specs.code.Stopping.{is_held, Returns, CanPass};

use crate::reached::Reached;
use fs_linearize_histories::Heard;
use fs_names::CallNo;

/// Whether the call of a number has committed in a configuration of a layer.
fn is_held(layer: &[Reached], number: u64) -> bool
    ensures { result ≡ is_held number layer.now }
{
    for reached in layer {
        if reached.configuration.holds(number) {
            return true;
        }
    }
    false
}

/// The call that returns next, if it has committed in no configuration of a layer.
pub fn unheld(layer: &[Reached], entry: &Heard) -> Option<CallNo>
    ensures some { IfSome result (λ c. Returns entry.now c × (is_held c layer.now ≡ false)) }
    ensures none { IfNone result (CanPass entry.now layer.now) }
{
    match entry {
        Heard::Begin(_, _, _) => None,
        Heard::Return(number, _) if is_held(layer, number.get()) => None,
        Heard::Return(number, _) => Some(*number),
    }
}
