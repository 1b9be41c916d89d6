//! Tests over the public calls of the crates below the world, and of the driver: known words and values, each row of the command
//! table, packets written by hand as bytes, each also made from a message and read again, and every fault with its place; the
//! converter; the host, what it sends, and what it says once it hears what came of that; its limits, a guard, a band and a rail, by
//! rows written by hand; courses and lists of steps; the driver and the buses beside it. The configuration and the cells that these
//! tests and those of the world begin from are public.
#![tactic(auto)]

ghost use Rattle.std.specs.Prelude.{IsTrue};

/// What is found and what is wanted, in rows: each at a place of its own, as `1, found => wanted;`, or all at the one of the head.
#[cfg(test)]
macro_rules! compare {
    ($rt:expr; $($at:expr, $found:expr => $wanted:expr);+ $(;)?) => {
        $(crate::checks::equal($rt, &$found, &$wanted, &$at);)+
    };
    ($rt:expr, $at:expr; $($found:expr => $wanted:expr);+ $(;)?) => {
        $(crate::checks::equal($rt, &$found, &$wanted, &$at);)+
    };
}

/// A struct with these fields, whose others are those of another one: `with! { Part, PART; silent: true }`.
#[cfg(test)]
macro_rules! with {
    ($type:ident, $base:expr; $($field:ident $(: $value:expr)?),+) => {
        $type { $($field $(: $value)?,)+ ..$base }
    };
}

#[cfg(test)]
mod buses;
#[cfg(test)]
mod calls;
#[cfg(test)]
mod courses;
#[cfg(test)]
mod damage;
#[cfg(test)]
mod deliveries;
#[cfg(test)]
mod device;
#[cfg(test)]
mod device_frames;
#[cfg(test)]
mod driver;
#[cfg(test)]
mod fault_texts;
#[cfg(test)]
mod faulty_reads;
#[cfg(test)]
mod faulty_writes;
mod fixtures;
#[cfg(test)]
mod frames;
#[cfg(test)]
mod framing;
#[cfg(test)]
mod host;
#[cfg(test)]
mod layouts;
#[cfg(test)]
mod limits;
#[cfg(test)]
mod numbers;
#[cfg(test)]
mod other_reads;
#[cfg(test)]
mod packet_error_code;
#[cfg(test)]
mod round_trips;
#[cfg(test)]
mod sequences;
#[cfg(test)]
mod tables;

pub use fixtures::{BASE, CELLS, FIRST, OUTPUT, SECOND, START};

#[cfg(test)]
mod checks {
    //! What every test asks, as calls: a macro that words its message is proved anew wherever it stands.
    use std::alloc::AllocError;
    use std::fmt::{Debug, Display};
    use std::process::Abort;

    /// Fails if what is found isn't what is wanted, and says both and where that was.
    pub(crate) fn equal<T: PartialEq + Debug>(
        rt: &impl Abort,
        found: &T,
        wanted: &T,
        at: &impl Debug,
    ) {
        is_true(rt, found == wanted, &(found, wanted, at));
    }

    /// Fails if this doesn't hold, and says where that was.
    pub(crate) fn is_true(rt: &impl Abort, holds: bool, at: &impl Debug)
        ensures { IsTrue holds }
    {
        assert!(rt; holds, "{at:?}");
    }

    /// Fails if what was found in this row of a table is not what is wanted there.
    pub(crate) fn agrees<T: PartialEq + Debug>(rt: &impl Abort, row: usize, found: &T, wanted: &T) {
        equal(rt, found, wanted, &row);
    }

    /// Fails if what is in this row of a table isn't printed so.
    pub(crate) fn prints(
        rt: &(impl Abort + AllocGlobal),
        row: usize,
        value: &impl Display,
        wanted: &str,
    ) -> Result<(), AllocError> {
        let text = format!(in rt.alloc(); "{value}")?;
        agrees(rt, row, &text.as_str(), &wanted);
        Ok(())
    }
}
