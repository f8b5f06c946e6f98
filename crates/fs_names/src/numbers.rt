//! The numbers of calls and seats.

ghost use Rattle.std.specs.Prelude.{◌≡◌, ℕ};

use std::marker::Model;

/// The number of a call, by which a journal speaks of it.
#[derive(Clone, Copy, Debug, PartialEq, Eq, PartialOrd, Ord, Hash)]
pub struct CallNo {
    call: u64,
}

impl Model for CallNo {
    ghost Value = { ℕ };

    ghost view = { λ c. c.call };

    ghost inverse = { λ n. record { call = n } };
}

impl CallNo {
    /// The call with this number: any is one.
    pub fn new(number: u64) -> Self
        ensures { result ≡ number }
    {
        CallNo { call: number }
    }

    /// The number that it was made with.
    pub fn get(self) -> u64
        ensures { result ≡ self }
    {
        self.call
    }
}

/// The number of a seat: a seat has at most one pending call at a time.
#[derive(Clone, Copy, Debug, PartialEq, Eq, PartialOrd, Ord, Hash)]
pub struct SeatNo {
    seat: u64,
}

impl Model for SeatNo {
    ghost Value = { ℕ };

    ghost view = { λ s. s.seat };

    ghost inverse = { λ n. record { seat = n } };
}

impl SeatNo {
    /// The seat with this number: any is one.
    pub fn new(number: u64) -> Self
        ensures { result ≡ number }
    {
        SeatNo { seat: number }
    }

    /// The number that it was made with.
    pub fn get(self) -> u64
        ensures { result ≡ self }
    {
        self.seat
    }
}
