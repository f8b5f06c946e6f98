//! The number of a place, or none, in four bytes.

ghost use Rattle.std.specs.Prelude.{◌≡◌, ◌<◌, Some, None};
ghost use Rattle.fs_nodes_places.specs.code.Spots.{number_below};

use fs_names::NODE_LIMIT;
use std::marker::Model;

/// The number of a place, or none, in four bytes: zero is none.
#[derive(Clone, Copy, Debug, PartialEq, Eq)]
pub struct Spot {
    raw: u32,
}

impl Model for Spot {
    ghost use Rattle.std.specs.Prelude.{ℕ, Option};
    ghost use Rattle.fs_nodes_places.specs.code.Spots.{spot_of, raw_of, raw_back};

    ghost Value = { Option ℕ };

    ghost view = { λ s. spot_of s.raw };

    ghost inverse = { λ o. record { raw = raw_of o } };

    ghost inverse_ok = { λ s h i. record { raw = raw_back s.raw i } };
}

impl Spot {
    /// No place.
    pub fn none() -> Spot
        ensures { result ≡ None }
    {
        Spot { raw: 0 }
    }

    /// The place of this number.
    pub fn at(number: usize) -> Spot
        requires { number < NODE_LIMIT }
        ensures { result ≡ Some number }
    {
        Spot {
            raw: number as u32 + 1,
        }
    }

    /// The number, where there is one.
    pub fn get(self) -> Option<usize>
        ensures { result ≡ self }
    {
        if self.raw == 0 {
            None
        } else {
            Some(self.raw as usize - 1)
        }
    }

    /// The number, where there is one below this bound.
    pub fn below(self, bound: usize) -> Option<usize>
        ensures { result ≡ number_below bound self }
    {
        // None wraps around to a number below no bound, so one comparison asks both.
        let number = (self.raw as usize).wrapping_sub(1);
        if number < bound { Some(number) } else { None }
    }
}
