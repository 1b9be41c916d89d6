//! What the host says when a job begins and ends, and what that says of the converter.

ghost use Rattle.std.specs.Prelude.{◌≡◌, ◌≢◌, ◌∷◌, ℕ, None, Some, true, IfOk, OnSome, OnOk, reverse};
ghost use Rattle.pm_host.specs.Answers.{good_word};
ghost use Rattle.pm_host.specs.Ended.{IsRead, IsUncertain, job_in};
ghost use Rattle.pm_host.specs.Refusals.{may_come};
ghost use Rattle.pm_host.specs.Told.{entry_told};
ghost use Rattle.pm_host.specs.Transcript.{Order};
ghost use Rattle.pm_world.specs.Ones.{ones_behind};
ghost use Rattle.pm_table.specs.declared.cell.Cell.TheVariants.{Out};
ghost use Rattle.pm_world.specs.Ended.{DiffersNeverTook};

use crate::further::run_and_step;
use pm_device::Config;
use pm_host::{Host, HostFault, JobEnd, Step, Told};
use pm_table::{Cell, Reg};
use pm_world::{Event, SetupFault, World, differing_orders_never_took, ones_are_no_answer};

/// Once an order is accepted its word is one that the cell may hold, and no word of the cell is confirmed.
pub fn an_order_that_begins(host: &mut Host, cell: Cell, word: u16) -> Result<(), HostFault>
    ensures open { OnOk result (job_in host.new ≡ Some (Order cell word)) }
    ensures uncertain { OnOk result (IsUncertain host.new cell word) }
{
    host.order(cell, word)
}

/// An order that is done leaves its cell confirmed with its word, and only that word is possible (`done`). One that
/// differs leaves the cell so with the word that was read, which is another (`differs`). One that ends unknown leaves
/// its word possible and no word of the cell confirmed (`unknown`). While it is open it is the open job (`next`).
pub fn an_order_that_ends(host: &mut Host, cell: Cell, word: u16, told: Told<'_>) -> Step
    requires order { job_in host.old ≡ Some (Order cell word) }
    requires may_come { may_come host.old (entry_told told) ≡ true }
    ensures done { result ≡ Step.Ended JobEnd.Done → IsRead host.new cell word }
    ensures differs { (read : ℕ) → result ≡ Step.Ended (JobEnd.Differs read) → (read ≢ word) × IsRead host.new cell read }
    ensures unknown { result ≡ Step.Ended JobEnd.Unknown → IsUncertain host.new cell word }
    ensures next { result ≡ Step.Next → job_in host.new ≡ Some (Order cell word) }
{
    host.told(told)
}

/// An order that differs never took, if the converter didn't restart since it was accepted: its cell had the word
/// that was read at each moment since then, and that isn't the ordered one.
pub fn an_order_that_differs_after_a_step(
    c: Config,
    passes: u8,
    events: &[Event],
    more: &Event,
) -> Result<Option<World>, SetupFault>
    ensures { IfOk result (λ found. OnSome found (DiffersNeverTook c passes (more.now ∷ reverse events.now))) }
{
    differing_orders_never_took();
    run_and_step(c, passes, events, more)
}

/// Nothing but ones after the first byte is no good answer for a register of an output, however many came.
pub fn ones_for_an_output(addr: u8, opening: u8, count: u32, output: u8, register: Reg)
    ensures { good_word addr (Out output register) (ones_behind opening count) ≡ None }
{
    ones_are_no_answer();
}
