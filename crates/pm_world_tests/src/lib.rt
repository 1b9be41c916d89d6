//! Tests over the public calls of the world, a module for each thing that is tested; of settings and of what a host knows of them: the
//! settings as a map and what they command, confirmed and possible words, stored settings and restarts of either end, beside the order
//! machine; and what tests ask of a world (`Look`), with the events that they tell most: of an order and a check of the first cell.
#![tactic(auto)]

ghost use Rattle.std.specs.Prelude.{IsTrue};

/// A struct with these fields, whose others are those of another one: `with! { Part, PART; silent: true }`.
#[cfg(test)]
macro_rules! with {
    ($type:ident, $base:expr; $($field:ident $(: $value:expr)?),+) => {
        $type { $($field $(: $value)?,)+ ..$base }
    };
}

#[cfg(test)]
mod bursts;
#[cfg(test)]
mod causes;
#[cfg(test)]
mod confirmed;
#[cfg(test)]
mod example;
#[cfg(test)]
mod faults;
#[cfg(test)]
mod fixtures;
pub mod full;
mod look;
#[cfg(test)]
mod orders;
#[cfg(test)]
mod plans;
#[cfg(test)]
mod refusals;
#[cfg(test)]
mod restarts;
#[cfg(test)]
mod runs;
#[cfg(test)]
mod settings;
#[cfg(test)]
mod stores;
#[cfg(test)]
mod turns;
#[cfg(test)]
mod uncertain;
#[cfg(test)]
mod watch;

pub use look::Look;
use pm_core_tests::FIRST;
use pm_world::{Arrival, Back, Event};

/// A check of the first cell.
pub const CHECK: Event = Event::Check(FIRST);

/// An order of 34CDh for the first cell.
pub const ORDER: Event = Event::Order(FIRST, 0x34CD);

/// A write arrives whole.
pub const WHOLE: Event = Event::Deliver(Arrival::Whole);

/// Nothing of a write arrives.
pub const LOST: Event = Event::Deliver(Arrival::Cut(0));

/// A write ends and was acknowledged.
pub const ACKED: Event = Event::Finish(true);

/// A write ends and wasn't acknowledged.
pub const NOT_ACKED: Event = Event::Finish(false);

/// A read is answered.
pub const READ: Event = Event::Exchange(Arrival::Whole, Back::Whole);

/// A read is heard, and its answer is lost.
pub const READ_LOST: Event = Event::Exchange(Arrival::Whole, Back::Cut(0));

#[cfg(test)]
mod checks {
    //! What every test asks, as two calls: a macro that words its message is proved anew wherever it stands.
    use std::fmt::Debug;
    use std::process::Abort;

    /// Fails if what is found isn't what is wanted, and says both and where that was.
    pub(crate) fn equal<T: PartialEq + Debug>(
        rt: &impl Abort,
        found: &T,
        wanted: &T,
        at: &impl Debug,
    ) {
        is_true(rt, found == wanted, &(found, wanted, at));
    }

    /// Fails if this doesn't hold, and says where that was.
    pub(crate) fn is_true(rt: &impl Abort, holds: bool, at: &impl Debug)
        ensures { IsTrue holds }
    {
        assert!(rt; holds, "{at:?}");
    }
}
