//! What the laws of the host and of its limits say: of an open order, of the ends of a band, and of registers that a part lacks.

ghost use Rattle.std.specs.Prelude.{◌≡◌, ◌<◌, ◌^◌, ℕ, Some, false, true, IfOk, OnSome, negsuc, reverse};
ghost use Rattle.pm_num.specs.AnyFormat.{InUlinear16, shape_value};
ghost use Rattle.pm_num.specs.Ratio.{is_above};
ghost use Rattle.pm_table.specs.declared.cell.Cell.{Cell};
ghost use Rattle.pm_table.specs.declared.cell.Cell.TheVariants.{Out};
ghost use Rattle.pm_table.specs.declared.reg.Reg.{Reg};
ghost use Rattle.pm_table.specs.declared.reg.Reg.TheVariants.{Operation};
ghost use Rattle.pm_model.specs.Commanded.{commanded};
ghost use Rattle.pm_model.specs.Settings.{Words, word_at};
ghost use Rattle.pm_host.specs.Marks.{marks};
ghost use Rattle.pm_host.specs.Possible.{is_possible, possible_of};
ghost use Rattle.pm_host.specs.Standing.{standing_of};
ghost use Rattle.pm_host.specs.Transcript.{Order, open_job};
ghost use Rattle.pm_host.specs.declared.knowledge.Standing.TheVariants.{Unknown};
ghost use Rattle.pm_limits.specs.declared.ends.Side.{Side};
ghost use Rattle.pm_limits.specs.declared.ends.Side.TheVariants.{Lowest};
ghost use Rattle.pm_limits.specs.Band.{Known, decides, end_with, operations};
ghost use Rattle.pm_limits.specs.Ends.{Reaches, format_end};
ghost use Rattle.pm_world.specs.Life.{life, now};
ghost use Rattle.pm_world.specs.Setup.{setup_of};

use crate::further::run_all;
use pm_device::Config;
use pm_host::open_orders_are_uncertain;
use pm_limits::{bands_are_ends, missing_limits_cut_nothing};
use pm_world::{Event, SetupFault, World, lives_are_followed};

/// While an order is open after a run, its word is possible for its cell, and no word of the cell is confirmed.
pub fn an_order_that_is_open(
    c: Config,
    passes: u8,
    events: &[Event],
) -> Result<Option<World>, SetupFault>
    ensures possible { IfOk result (λ found. OnSome found ((cell : Cell) (word : ℕ) →
        let entries = (life c passes (reverse events.now)).entries in
        open_job (setup_of c passes) entries ≡ Some (Order cell word) →
        is_possible word (possible_of (marks (setup_of c passes) entries) cell) ≡ true)) }
    ensures unknown { IfOk result (λ found. OnSome found ((cell : Cell) (word : ℕ) →
        let entries = (life c passes (reverse events.now)).entries in
        open_job (setup_of c passes) entries ≡ Some (Order cell word) →
        standing_of (marks (setup_of c passes) entries) cell ≡ Unknown)) }
{
    open_orders_are_uncertain();
    lives_are_followed();
    run_all(c, passes, events)
}

/// The word at which a VOUT_MIN stands that a part of the usual exponent lacks cuts no word.
pub fn a_missing_vout_min(word: u16)
    ensures { is_above (shape_value (InUlinear16 (negsuc 11)) (format_end Lowest (InUlinear16 (negsuc 11))))
        (shape_value (InUlinear16 (negsuc 11)) word) ≡ false }
{
    missing_limits_cut_nothing();
}

/// An output of a usual part commands no value beyond the end of its band, whichever of the possible words it holds.
pub fn an_end_of_a_band()
    ensures { (side : Side) (known : Known) (words : Words) (output : ℕ) →
        ((register : Reg) → decides known register ≡ true → is_possible (word_at words (Out output register)) (known register) ≡ true) →
        ((register : Reg) → word_at words (Out output register) < 2 ^ 16) →
        Reaches side (end_with side (InUlinear16 (negsuc 11)) known (operations (known Operation)))
        (commanded (shape_value (InUlinear16 (negsuc 11))) words output) }
{
    bands_are_ends();
}
