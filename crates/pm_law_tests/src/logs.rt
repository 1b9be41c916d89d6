//! What the laws of logs say: what an accepted log is worth, and that nothing less would do.

ghost use Rattle.std.specs.Prelude.{◌≡◌, ◌<◌, ◌++◌, ℕ, ℤ, List, None, Some, IsSome, false, IfOk, IfSome, OnSome, reverse, slice_get};
ghost use Rattle.pm_table.specs.Address.{IsAddress};
ghost use Rattle.pm_table.specs.declared.cell.Cell.{Cell};
ghost use Rattle.pm_table.specs.declared.cell.Cell.TheVariants.{Out};
ghost use Rattle.pm_table.specs.declared.reg.Reg.{Reg};
ghost use Rattle.pm_model.specs.Settings.{word_at};
ghost use Rattle.pm_host.specs.Marks.{marks};
ghost use Rattle.pm_limits.specs.declared.part_registers.PartRegisters.{PartRegisters};
ghost use Rattle.pm_limits.specs.Band.{band_at};
ghost use Rattle.pm_limits.specs.Bounds.{IsWithin, bounds_fault};
ghost use Rattle.pm_log.specs.declared.claim.Claim.TheVariants.{Commands, Holds};
ghost use Rattle.pm_log.specs.Checks.{MightCome, is_claimed, replayed, transcript};
ghost use Rattle.pm_log_laws.specs.Checked.{CommandsOther, HeldWhenRead, LeavesCell, LeavesCommand, LeavesOther, TellsLog};
ghost use Rattle.pm_world.specs.declared.event.Event.{Event as Happening};
ghost use Rattle.pm_world.specs.Bands.{AreShort, BandStands, HoldsMissing, MissingUntold};
ghost use Rattle.pm_world.specs.Confirmed.{restarted_since};
ghost use Rattle.pm_world.specs.Honest.{IsSpelled};
ghost use Rattle.pm_world.specs.Life.{now};
ghost use Rattle.pm_world.specs.Limited.{commands};
ghost use Rattle.pm_world.specs.Lived.{IsLived};
ghost use Rattle.pm_world.specs.Possible.{restarted_since_host};
ghost use Rattle.pm_world.specs.Setup.{setup_of};
ghost use Rattle.pm_world.specs.Uncertainty.{AreOpen, since_restart};

use crate::further::run_all;
use pm_device::Config;
use pm_log::{Act, Claim, check};
use pm_log_laws::{
    accepted_claims_are_held, accepted_claims_stay, accepted_voltages_stay,
    unknown_claims_are_open, unknown_voltages_are_open,
};
use pm_world::{Event, SetupFault, World};

/// The converter held each claimed word at the host's last good answer for its cell, and holds it unless it restarted
/// since, if the log of what the host heard in a run is accepted.
pub fn a_log_that_is_accepted(
    c: Config,
    passes: u8,
    events: &[Event],
    acts: &[Act<'_>],
    claims: &[Claim],
) -> Result<Option<World>, SetupFault>
    ensures read { IfOk result (λ found. OnSome found ((at : ℕ) (cell : Cell) (word : ℕ) →
        TellsLog c passes (reverse events.now) acts.now → slice_get claims.now at ≡ Some (Holds cell word) →
        HeldWhenRead c passes cell word (reverse events.now))) }
    ensures held { IfOk result (λ found. OnSome found ((at : ℕ) (cell : Cell) (word : ℕ) →
        TellsLog c passes (reverse events.now) acts.now → slice_get claims.now at ≡ Some (Holds cell word) →
        restarted_since c passes cell (reverse events.now) ≡ false →
        word_at (now c passes (reverse events.now)).device.words cell ≡ word)) }
{
    accepted_claims_are_held();
    let found = run_all(c, passes, events)?;
    match check(c.addr, c.count, passes, acts, claims) {
        Ok(()) => Ok(found),
        Err(_) => Ok(None),
    }
}

/// Later events of a life leave a claimed word while the converter doesn't restart and no job that may write the cell is open.
pub fn a_word_that_stays(c: Config, passes: u8, acts: &[Act<'_>], claims: &[Claim]) -> Option<()>
    requires { IsAddress c.addr }
    ensures { IfSome result (λ accepted. (later before : List Happening) (at : ℕ) (cell : Cell) (word : ℕ) →
        IsLived c passes (later ++ before) → TellsLog c passes before acts.now →
        slice_get claims.now at ≡ Some (Holds cell word) → restarted_since c passes cell before ≡ false →
        LeavesCell c passes cell later before → word_at (now c passes (later ++ before)).device.words cell ≡ word) }
{
    accepted_claims_stay();
    match check(c.addr, c.count, passes, acts, claims) {
        Ok(()) => Some(()),
        Err(_) => None,
    }
}

/// Later events of a life leave what an output commands between the claimed microvolts, while the converter doesn't restart and no
/// job is open that may write a word by which the output commands.
pub fn a_voltage_that_stays(c: Config, passes: u8, acts: &[Act<'_>], claims: &[Claim]) -> Option<()>
    requires { IsAddress c.addr }
    ensures { IfSome result (λ accepted. (later before : List Happening) (at : ℕ) (output : ℕ) (part : PartRegisters) (least most : ℤ) →
        IsSpelled c → IsLived c passes (later ++ before) → TellsLog c passes before acts.now →
        slice_get claims.now at ≡ Some (Commands output part least most) →
        AreShort (now c passes before).device.words output → BandStands c passes before (now c passes before).host output →
        HoldsMissing part c (now c passes before).device.words output → LeavesCommand c passes output later before →
        IsWithin (record { least = least; most = most }) (commands c passes (later ++ before) output)) }
{
    accepted_voltages_stay();
    match check(c.addr, c.count, passes, acts, claims) {
        Ok(()) => Some(()),
        Err(_) => None,
    }
}

/// A word of an output's register that the log of a life doesn't make known isn't held in some life with the same log.
pub fn a_word_that_is_open(
    c: Config,
    passes: u8,
    events: &[Event],
    acts: &[Act<'_>],
) -> Result<Option<World>, SetupFault>
    ensures { IfOk result (λ found. OnSome found ((output : ℕ) (register : Reg) (word : ℕ) →
        TellsLog c passes (reverse events.now) acts.now → MightCome (setup_of c passes) acts.now →
        restarted_since_host (reverse events.now) ≡ false →
        AreOpen (marks (setup_of c passes) (since_restart (transcript (setup_of c passes) acts.now))) → output < c.count →
        is_claimed (replayed (setup_of c passes) acts.now) (Holds (Out output register) word) ≡ false →
        LeavesOther c passes acts.now (Out output register) word)) }
{
    unknown_claims_are_open();
    run_all(c, passes, events)
}

/// Microvolts between which the log of a life doesn't say that an output lies are left in some life with the same log.
pub fn a_voltage_that_is_open(
    c: Config,
    passes: u8,
    events: &[Event],
    acts: &[Act<'_>],
) -> Result<Option<World>, SetupFault>
    ensures { IfOk result (λ found. OnSome found ((output : ℕ) (part : PartRegisters) (least most : ℤ) →
        TellsLog c passes (reverse events.now) acts.now → MightCome (setup_of c passes) acts.now →
        restarted_since_host (reverse events.now) ≡ false →
        AreOpen (marks (setup_of c passes) (since_restart (transcript (setup_of c passes) acts.now))) →
        MissingUntold part c (replayed (setup_of c passes) acts.now) → output < c.count → bounds_fault least most ≡ None →
        IsSome (band_at part (replayed (setup_of c passes) acts.now) output) →
        is_claimed (replayed (setup_of c passes) acts.now) (Commands output part least most) ≡ false →
        CommandsOther c passes acts.now output (record { least = least; most = most }))) }
{
    unknown_voltages_are_open();
    run_all(c, passes, events)
}
