//! The call that holds a node, or none, in one word.

ghost use Rattle.std.specs.Prelude.{◌≡◌, ◌<◌, Some, None};

use fs_names::CallNo;
use std::marker::Model;

/// The calls with a number below it can hold a node: the greatest number has no word.
pub const CALL_LIMIT: u64 = 18_446_744_073_709_551_615;

/// The number of the call that holds a node, or none, in one word: zero is none, else the number and one.
#[derive(Clone, Copy, Debug, PartialEq, Eq)]
pub struct HolderWord {
    raw: u64,
}

impl Model for HolderWord {
    ghost use Rattle.std.specs.Prelude.{ℕ, Option};
    ghost use Rattle.fs_nodes_places.specs.code.Spots.{spot_of, raw_of, raw_back};

    ghost Value = { Option ℕ };

    ghost view = { λ w. spot_of w.raw };

    ghost inverse = { λ o. record { raw = raw_of o } };

    ghost inverse_ok = { λ w h i. record { raw = raw_back w.raw i } };
}

impl HolderWord {
    /// No call.
    pub fn none() -> HolderWord
        ensures { result ≡ None }
    {
        HolderWord { raw: 0 }
    }

    /// This call.
    pub fn of(call: CallNo) -> HolderWord
        requires { call < CALL_LIMIT }
        ensures { result ≡ Some call }
    {
        HolderWord {
            raw: call.get() + 1,
        }
    }

    /// The call, where there is one.
    pub fn get(self) -> Option<CallNo>
        ensures { result ≡ self }
    {
        if self.raw == 0 {
            None
        } else {
            Some(CallNo::new(self.raw - 1))
        }
    }
}
