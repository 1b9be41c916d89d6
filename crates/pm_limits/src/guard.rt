//! A guard: a host that orders no voltage outside the limits.

mod calls;

/// Whether an output's voltage lies within its limits, by what is known.
#[derive(Clone, Copy, Debug, PartialEq, Eq)]
pub enum Within {
    /// The whole band lies within the limits.
    Yes,
    /// The whole band lies below the limits, or above them.
    No,
    /// The band lies partly within, or there is none: the format isn't known, or a byte of AVSBus is possible for OPERATION.
    NotKnown,
    /// The output has no limits: none were given, or it was said that it has none.
    NoLimits,
}

ghost use Rattle.std.specs.Prelude.{◌≡◌, ◌<◌, IfOk, OnOk, OnErr, [], ◌∷◌, replicate, slice_set};
ghost use Rattle.std.specs.Option.{option_map_or};
ghost use Rattle.std.specs.Result.{result_err};
ghost use Rattle.pm_table.specs.Address.{IsAddress};
ghost use Rattle.pm_table.specs.Rules.{first};
ghost use Rattle.pm_host.specs.Refusals.{IsSetup, setup_fault};
ghost use Rattle.pm_host.specs.Summary.{start};
ghost use Rattle.pm_host.specs.Transcript.{Setup};
ghost use Rattle.pm_limits.specs.Band.{band_at, within_of};
ghost use Rattle.pm_limits.specs.declared.output_limits.OutputLimits.TheVariants.{Unlimited};
ghost use Rattle.pm_limits.specs.Guard.{LetsBegin, limits_at, limits_for as spec_limits_for, narrow_fault, narrowed, narrower_fault, open_fault, unlimited, unlimited_fault};
ghost use Rattle.pm_limits.specs.Part.{all_registers};

use crate::band::{Band, band_of};
use crate::fault::LimitFault;
use crate::judgement::{
    NewLimits, judge, judge_word, narrower_limits, ordered_output, output_of, refuse_cell,
    refuse_ordered, within_limits,
};
use crate::limits::Limits;
use crate::output_limits::OutputLimits;
use crate::part_registers::PartRegisters;
use pm_host::{Host, HostFault, Job};
use pm_table::Cell;
use std::marker::Model;

// How many outputs a device has at most.
const OUTPUTS: usize = 8;

/// A host that refuses orders beyond the limits of their output.
///
/// It has the host's calls, which do what they do there. It also refuses, for an output with limits, an order of
/// VOUT_COMMAND, VOUT_MAX, VOUT_MIN or a margin whose word stands for a value outside them, in the exact fraction of the word
/// that would be sent. It refuses an order of OPERATION that leaves such an output on, unless the band with that byte lies
/// within the limits. It refuses both for an output of which no limits are known: neither were any given, nor was it said
/// that there are none. Turning an output off is never refused by a limit, and an output that is said to have none is as at a
/// host.
///
/// It learns once which registers the part has. It refuses a job on another, and an order of OPERATION that selects
/// a missing margin.
///
/// Limits can be narrowed, never widened. Words that were ordered before limits were narrowed stay
/// possible: [`Guard::within`] says what holds of the output now.
#[derive(Debug, Drop)]
pub struct Guard {
    host: Host,
    limits: [OutputLimits; OUTPUTS],
    registers: PartRegisters,
}

impl Model for Guard {
    ghost use Rattle.pm_limits.specs.Guard.{Guarded};

    ghost Value = { Guarded };

    ghost use Rattle.std.specs.Prelude.{◌≡◌, length};

    ghost view = { λ g. record { host = g.host; limits = g.limits; registers = g.registers } };
}

impl Guard {
    /// A guard whose host is as [`Host::new`] makes it, with what is said of the limits of each output; those of outputs that
    /// aren't there mean nothing. The part has every register. H1 and H2 as there.
    pub fn new(
        addr: u8,
        outputs: u8,
        passes: u8,
        limits: [OutputLimits; 8],
    ) -> Result<Guard, HostFault>
        requires { IsAddress addr }
        ensures made { let setup : Setup = record { addr = addr; outputs = outputs; passes = passes } in
            IfOk result (λ guard. guard ≡ record { host = start setup; limits = limits; registers = all_registers }) }
        ensures setup { IfOk result (λ guard. IsSetup guard.host.setup) }
        ensures fault { result_err result ≡ setup_fault outputs passes }
    {
        Guard::of_part(addr, outputs, passes, limits, PartRegisters::all())
    }

    /// Makes a guard as [`Guard::new`] does, of a part whose outputs have these registers.
    pub fn of_part(
        addr: u8,
        outputs: u8,
        passes: u8,
        limits: [OutputLimits; 8],
        registers: PartRegisters,
    ) -> Result<Guard, HostFault>
        requires { IsAddress addr }
        ensures made { let setup : Setup = record { addr = addr; outputs = outputs; passes = passes } in
            IfOk result (λ guard. guard ≡ record { host = start setup; limits = limits; registers = registers }) }
        ensures setup { IfOk result (λ guard. IsSetup guard.host.setup) }
        ensures fault { result_err result ≡ setup_fault outputs passes }
    {
        match Host::new(addr, outputs, passes) {
            Ok(host) => Ok(Guard {
                host,
                limits,
                registers,
            }),
            Err(fault) => Err(fault),
        }
    }

    /// A host as a guard of outputs that have no limits, whose part has every register: it does what the host does. Limits that it is
    /// given later are as those that are narrowed: what was ordered before stays possible.
    pub fn over(host: Host) -> Guard
        ensures { result ≡ record { host = host; limits = replicate 8 Unlimited; registers = all_registers } }
    {
        Guard {
            host,
            limits: [OutputLimits::Unlimited; OUTPUTS],
            registers: PartRegisters::all(),
        }
    }

    /// Which registers the part has.
    pub fn registers(&self) -> PartRegisters
        ensures { result ≡ self.now.registers }
    {
        self.registers
    }

    /// Begins a job, as [`Host::begin`], or refuses it. A refusal changes nothing.
    ///
    /// - An order of a word is refused with the first of these: H3; H4; L7 if the part doesn't have the register or the
    ///   margin that a byte of OPERATION selects; L8 if no limits are known; L2 if the format isn't known; L3 below the
    ///   limits; L4 above them; H5; L8, L2 or L5 for a byte of OPERATION that leaves the output on; H6.
    /// - An order in microvolts is refused with the first of H3, H4, L7, H5, H7, N5, N3, N4, then L8, L3 and L4 by the
    ///   value of the nearest word, and H6.
    /// - A check is refused with the first of H3, H4 and L7.
    /// - Every other job is refused as the host refuses it.
    pub fn begin(&mut self, job: Job) -> Result<(), LimitFault>
        ensures { LetsBegin self.old job result self.new }
    {
        match job {
            Job::Order(cell, word) => self.begin_order(cell, word),
            _ => self.begin_other(job),
        }
    }

    // Begins an order of a word, which is asked for most: no job goes through memory, and no limits.
    #[tactic(auto, using(crate::proofs::Unlimited::unlimited))]
    fn begin_order(&mut self, cell: Cell, word: u16) -> Result<(), LimitFault>
        ensures { LetsBegin self.old (Job.Order cell word) result self.new }
    {
        refuse_ordered(
            self.host.state(),
            self.host.stage(),
            self.registers,
            cell,
            word,
        )?;
        match self.kept(output_of(cell)) {
            None | Some(OutputLimits::Unlimited) => {}
            Some(limits) => {
                refuse_cell(self.host.state(), self.host.stage(), cell)?;
                judge_word(self.host.state(), self.registers, limits, cell, word)?;
            }
        }
        match self.host.order(cell, word) {
            Ok(()) => Ok(()),
            Err(fault) => Err(LimitFault::Host(fault)),
        }
    }

    // Begins any job, by what is to be asked for in its place. It isn't inlined: it would weigh on each order of a word.
    #[inline(never)]
    fn begin_other(&mut self, job: Job) -> Result<(), LimitFault>
        ensures { LetsBegin self.old job result self.new }
    {
        let limits = self.limits_for(job);
        let asked = judge(
            self.host.state(),
            self.host.stage(),
            self.registers,
            &limits,
            job,
        )?;
        match self.host.begin(asked) {
            Ok(()) => Ok(()),
            Err(fault) => Err(LimitFault::Host(fault)),
        }
    }

    // The limits of the output whose cell a job orders.
    fn limits_for(&self, job: Job) -> OutputLimits
        ensures { result ≡ spec_limits_for self.now job }
    {
        match ordered_output(job) {
            Some(output) => self.limits(output),
            None => OutputLimits::Unlimited,
        }
    }

    /// What is said of an output's limits. One that isn't there has none.
    pub fn limits(&self, output: u8) -> OutputLimits
        ensures { result ≡ limits_at self.now output }
    {
        match self.kept(output) {
            Some(limits) => *limits,
            None => OutputLimits::Unlimited,
        }
    }

    // What is said of them, borrowed from the guard.
    #[inline(always)]
    fn kept(&self, output: u8) -> Option<&OutputLimits>
        ensures { option_map_or (λ limits. limits.now) result Unlimited ≡ limits_at self.now output }
    {
        self.limits.get(usize::from(output))
    }

    /// Gives an output narrower limits of these microvolts; an output without any takes these. A refusal changes
    /// nothing. It is the first of these that applies:
    ///
    /// - H4: the output isn't there.
    /// - N5: a limit is beyond 10^15 in size.
    /// - L1: the least is above the most.
    /// - L6: the output has limits, and these let through what those don't.
    /// - H3: an order of the output is open that these refuse, since its frame may be sent again.
    ///
    /// A word that was ordered before stays possible, and one that the device holds stays there: ask
    /// [`Guard::within`].
    pub fn narrow(&mut self, output: u8, least: i64, most: i64) -> Result<(), LimitFault>
        ensures fault { result_err result ≡ narrow_fault self.old output least most }
        ensures ok { OnOk result (self.new ≡ narrowed self.old output least most) }
        ensures err { OnErr result (self.new ≡ self.old) }
    {
        if output >= self.host.outputs() {
            return Err(LimitFault::Host(HostFault::UnknownOutput));
        }
        match self.narrower(output, least, most) {
            Ok(limits) => {
                put(&mut self.limits, output, OutputLimits::Between(limits));
                Ok(())
            }
            Err(fault) => Err(fault),
        }
    }

    /// Says that an output has no limits: its orders are then refused for the host's reasons only. H4 if it isn't
    /// there, L6 if it has limits; then nothing changes. Limits that are given later end it.
    pub fn no_limits(&mut self, output: u8) -> Result<(), LimitFault>
        ensures fault { result_err result ≡ unlimited_fault self.old output }
        ensures ok { OnOk result (self.new ≡ unlimited self.old output) }
        ensures err { OnErr result (self.new ≡ self.old) }
    {
        if output >= self.host.outputs() {
            return Err(LimitFault::Host(HostFault::UnknownOutput));
        }
        if self.limits(output).is_limited() {
            return Err(LimitFault::LimitsWidened);
        }
        put(&mut self.limits, output, OutputLimits::Unlimited);
        Ok(())
    }

    // The narrower limits of an output, or why it takes none.
    fn narrower(&self, output: u8, least: i64, most: i64) -> Result<Limits, LimitFault>
        ensures made { IfOk result (λ limits. limits ≡ record { least = least; most = most }) }
        ensures fault { result_err result ≡ first (narrower_fault (limits_at self.now output) least most
            ∷ open_fault self.now.registers (record { least = least; most = most }) self.now.host output ∷ []) }
    {
        let old = self.limits(output);
        let (state, stage) = (self.host.state(), self.host.stage());
        let new = NewLimits {
            output,
            least,
            most,
        };
        narrower_limits(state, stage, self.registers, &old, new)
    }

    /// Between which voltages an output may be, as [`band_of`] says. The output is there.
    pub fn band(&self, output: u8) -> Option<Band>
        requires { output < self.now.host.setup.outputs }
        ensures { result ≡ band_at self.now.registers self.now.host output }
    {
        band_of(&self.host, self.registers, output)
    }

    /// Whether an output's voltage lies within its limits, by the words that its registers may hold: `Yes` if its
    /// whole band does, `No` if the whole band lies below the limits or above them, otherwise `NotKnown`. It is `NoLimits`
    /// if the output has none. The output is there.
    ///
    /// The limits hold for good if each word lies within them that the registers of the output, and the device's user
    /// store, had before the guard, or that was ordered before these limits were given. Check the registers, and see that this answers `Yes`. What the store
    /// holds no host can read: a restore or a restart of the device may bring it out.
    pub fn within(&self, output: u8) -> Within
        requires { output < self.now.host.setup.outputs }
        ensures { result ≡ within_of (limits_at self.now output) (band_at self.now.registers self.now.host output) }
    {
        within_limits(&self.limits(output), self.band(output))
    }
}

// Gives an output limits.
#[tactic(auto, using(std::proofs::lemmas::List::set_past))]
fn put(all: &mut [OutputLimits], output: u8, limits: OutputLimits)
    ensures { all.new ≡ slice_set all.old output limits }
{
    let place = usize::from(output);
    if place < all.len() {
        all[place] = limits;
    }
}
