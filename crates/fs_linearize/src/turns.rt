//! The turns in which a depth-first search tries calls: those that return first come first. What is found does not depend on them,
//! but how soon.

ghost use Rattle.std.specs.Prelude.{◌≡◌, ◌⊎◌, Some, Contains, IfSome};

use fs_linearize_configurations::under_way::UnderWay;
use fs_linearize_histories::Heard;
use std::alloc::{AllocError, Global};
use std::collections::BTreeMap;

/// The turn of a call: the place of its return, and its number.
#[derive(Clone, Copy, Debug, PartialEq, Eq, PartialOrd, Ord)]
pub(crate) struct Turn {
    place: usize,
    number: u64,
}

impl Turn {
    /// Before the turn of each call, since none returns at the first place.
    pub const FIRST: Turn = Turn {
        place: 0,
        number: 0,
    };
}

/// At which places calls return, by their numbers.
#[derive(Drop)]
pub(crate) struct Turns {
    places: BTreeMap<u64, usize>,
}

/// The one call, or the other one if its turn comes sooner, and after the last.
fn sooner<'a>(
    one: Option<(UnderWay<'a>, Turn)>,
    other: &UnderWay<'a>,
    turn: Turn,
    last: Turn,
) -> Option<(UnderWay<'a>, Turn)>
    ensures { IfSome result (λ found. (found.0 ≡ other.now) ⊎ (one.entry ≡ Some found)) }
{
    if turn <= last {
        return one;
    }
    match one {
        Some((call, before)) if before <= turn => Some((call, before)),
        _ => Some((*other, turn)),
    }
}

impl Turns {
    /// The turns of the calls of a history.
    pub fn of(alloc: Global, history: &[Heard]) -> Result<Self, AllocError> {
        let mut places = BTreeMap::new(alloc);
        for (place, entry) in history.iter().enumerate() {
            if let Heard::Return(number, _) = entry {
                places.insert(number.get(), place)?;
            }
        }
        Ok(Turns { places })
    }

    /// The turn of the call of a number: one that never returns comes last.
    fn of_call(&self, number: u64) -> Turn {
        match self.places.get(&number) {
            Some(place) => Turn {
                place: *place,
                number,
            },
            None => Turn {
                place: usize::MAX,
                number,
            },
        }
    }

    /// The call of these whose turn is the next one after the last.
    pub fn next<'a>(&self, calls: &[UnderWay<'a>], last: Turn) -> Option<(UnderWay<'a>, Turn)>
        ensures { IfSome result (λ found. Contains calls.now found.0) }
    {
        let mut next = None;
        for call in calls {
            next = sooner(next, call, self.of_call(call.number), last);
        }
        next
    }
}
