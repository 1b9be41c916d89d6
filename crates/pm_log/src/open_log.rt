//! What is known after lines that were accepted.

ghost use Rattle.std.specs.Prelude.{◌≡◌, ◌<◌, Some, Ok, Err, MatchResult};
ghost use Rattle.pm_host.specs.Told.{entry_told};
ghost use Rattle.pm_log.specs.Answered.{cell_of_answer as spec_answer_in};
ghost use Rattle.pm_table.specs.Address.{IsAddress};
ghost use Rattle.pm_log.specs.Logs.{left_possible, unknown_claim as spec_unknown};

use crate::answers::{Answers, answered_cell};
use crate::fault::LogFault;
use crate::lacks::{Lacks, has_all, not_allowed};
use crate::log_line::LogLine;
use crate::transfer::take_transfer;
use crate::{Claim, is_claimed};
use pm_host::{Host, Possible, Told};
use pm_table::{Cell, address_ok};
use std::marker::Model;

/// What is known after lines that were accepted: the host of the last head, how many claims and transfers there were, and which registers
/// parts lack by those claims.
#[derive(Debug, Drop)]
pub struct OpenLog {
    host: Option<Host>,
    answers: Answers,
    claims: u64,
    transfers: u64,
    allowed: Lacks,
    without: Lacks,
}

impl Model for OpenLog {
    ghost use Rattle.pm_log.specs.Logs.{Known};

    ghost Value = { Known };

    ghost view = { λ o. record {
      host = o.host;
      answers = o.answers;
      claims = o.claims;
      transfers = o.transfers;
      allowed = o.allowed.parts;
      without = o.without.parts;
    } };
}

impl OpenLog {
    ghost use Rattle.std.specs.Prelude.{◌+◌, ◌<◌, ◌≤◌, ◌^◌, IfOk, is_some};
    ghost use Rattle.pm_log.specs.Logs.{claimed, distrusted, headed, line_accepted, known_before_lines, transfer_told};

    /// No line, for a receiver who lets parts lack these registers.
    pub(crate) fn new(allowed: &Lacks) -> OpenLog
        ensures { result ≡ known_before_lines allowed.now.parts }
    {
        OpenLog {
            host: None,
            answers: Answers::new(),
            claims: 0,
            transfers: 0,
            allowed: *allowed,
            without: Lacks::nothing(),
        }
    }

    /// Whether there was a head.
    pub fn has_head(&self) -> bool
        ensures { result ≡ is_some self.now.host }
    {
        self.host.is_some()
    }

    /// How many claims were accepted.
    pub fn claims(&self) -> u64
        ensures { result ≡ self.now.claims }
    {
        self.claims
    }

    /// How many transfers a host heard of.
    pub fn transfers(&self) -> u64
        ensures { result ≡ self.now.transfers }
    {
        self.transfers
    }

    /// Which registers parts lack by the claims that were accepted.
    pub fn without(&self) -> &Lacks
        ensures { result.now.parts ≡ self.now.without }
    {
        &self.without
    }

    /// Takes what the line with this number says, or answers why it isn't accepted. Then what is known isn't said, but for the counts.
    pub(crate) fn take(&mut self, number: u64, line: &LogLine) -> Result<(), LogFault>
        requires claims { self.old.claims + 1 < 2 ^ 64 }
        requires transfers { self.old.transfers + 1 < 2 ^ 64 }
        ensures judged { MatchResult result (λ _. line_accepted number self.old line.now ≡ Ok self.new)
            (λ fault. line_accepted number self.old line.now ≡ Err fault) }
        ensures claims { self.new.claims ≤ self.old.claims + 1 }
        ensures transfers { self.new.transfers ≤ self.old.transfers + 1 }
    {
        match line {
            LogLine::Note => Ok(()),
            LogLine::Head {
                addr,
                outputs,
                passes,
            } => self.begin(*addr, *outputs, *passes),
            LogLine::Claimed(claim) => self.claim(*claim),
            LogLine::Sent(parts) => match &parts.read {
                Some(read) => self.tell(number, parts.write.as_slice(), Told::Got(read.as_slice())),
                None => self.tell(
                    number,
                    parts.write.as_slice(),
                    Told::Finished { acked: true },
                ),
            },
            LogLine::Failed(write) => {
                self.tell(number, write.as_slice(), Told::Finished { acked: false })
            }
        }
    }

    // A log begins.
    fn begin(&mut self, addr: u8, outputs: u8, passes: u8) -> Result<(), LogFault>
        ensures judged { MatchResult result
            (λ _. headed self.old (record { addr = addr; outputs = outputs; passes = passes }) ≡ Ok self.new)
            (λ fault. headed self.old (record { addr = addr; outputs = outputs; passes = passes }) ≡ Err fault) }
        ensures claims { self.new.claims ≡ self.old.claims }
        ensures transfers { self.new.transfers ≡ self.old.transfers }
    {
        if !address_ok(addr) {
            return Err(LogFault::Address);
        }
        match Host::new(addr, outputs, passes) {
            Ok(host) => {
                self.host = Some(host);
                self.answers = Answers::new();
                Ok(())
            }
            Err(fault) => Err(LogFault::Setup(fault)),
        }
    }

    // A claim is known.
    fn claim(&mut self, claim: Claim) -> Result<(), LogFault>
        requires { self.old.claims + 1 < 2 ^ 64 }
        ensures judged { MatchResult result (λ _. claimed self.old self.old.host claim ≡ Ok self.new)
            (λ fault. claimed self.old self.old.host claim ≡ Err fault) }
        ensures claims { self.new.claims ≤ self.old.claims + 1 }
        ensures transfers { self.new.transfers ≡ self.old.transfers }
    {
        let Some(host) = &self.host else {
            return Err(LogFault::NoHead);
        };
        let addr = address(host);
        if let Some(fault) = self.distrusted(addr, claim) {
            return Err(fault);
        }
        if !is_claimed(host, claim) {
            return Err(unknown(host, claim));
        }
        self.claims += 1;
        if let Claim::Commands { part, .. } = claim {
            self.without.add(addr, part);
        }
        Ok(())
    }

    // Why a claim isn't looked at, which says that the part at this address lacks registers.
    fn distrusted(&self, addr: u8, claim: Claim) -> Option<LogFault>
        requires { addr < 128 }
        ensures { result ≡ distrusted self.now addr claim }
    {
        let Claim::Commands { output, part, .. } = claim else {
            return None;
        };
        if let Some((cell, line)) = self.answers.belied(part, output) {
            return Some(LogFault::Answered { addr, cell, line });
        }
        let left = not_allowed(self.allowed.part(addr), part);
        if has_all(left) {
            None
        } else {
            Some(LogFault::Lacks { addr, part: left })
        }
    }

    // A transfer came.
    fn tell(&mut self, number: u64, frame: &[u8], came: Told<'_>) -> Result<(), LogFault>
        requires { self.old.transfers + 1 < 2 ^ 64 }
        ensures judged { MatchResult result
            (λ _. transfer_told number self.old self.old.host frame.now (entry_told came.entry) ≡ Ok self.new)
            (λ fault. transfer_told number self.old self.old.host frame.now (entry_told came.entry) ≡ Err fault) }
        ensures claims { self.new.claims ≡ self.old.claims }
        ensures transfers { self.new.transfers ≤ self.old.transfers + 1 }
    {
        let Some(host) = &mut self.host else {
            return Err(LogFault::NoHead);
        };
        let cell = answer_in(address(host), frame, came);
        match take_transfer(host, frame, came) {
            Ok(is_told) => {
                self.answers.add(number, cell);
                self.transfers += u64::from(is_told);
                Ok(())
            }
            Err(fault) => Err(fault),
        }
    }
}

// The address of a host's part.
fn address(host: &Host) -> u8
    ensures address { result ≡ host.now.setup.addr }
    ensures part { IsAddress result }
    ensures short { result < 128 }
{
    // law: the address of a host is one that a part may have
    let _state = host.state();
    host.address()
}

// The cell for which the part at an address answered.
fn answer_in(addr: u8, frame: &[u8], came: Told<'_>) -> Option<Cell>
    requires { IsAddress addr }
    ensures { result ≡ spec_answer_in addr frame.now (entry_told came.entry) }
{
    match came {
        Told::Got(bytes) => answered_cell(addr, frame, bytes),
        Told::Finished { .. } => None,
    }
}

// Why a claim isn't known.
fn unknown(host: &Host, claim: Claim) -> LogFault
    ensures { result ≡ spec_unknown host.now claim }
{
    match claim {
        Claim::Holds { cell, word } => LogFault::Word {
            cell,
            word,
            possible: possible(host, cell),
        },
        Claim::Commands {
            output,
            least,
            most,
            ..
        } => LogFault::Voltage {
            output,
            least,
            most,
        },
    }
}

// The words that a cell may hold: any, if it isn't there.
fn possible(host: &Host, cell: Cell) -> Possible
    ensures { result ≡ left_possible host.now cell }
{
    if cell.is_there(host.outputs()) {
        host.possible(cell)
    } else {
        Possible::Any
    }
}
