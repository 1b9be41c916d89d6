//! A log as its bytes come.

ghost use Rattle.std.specs.Prelude.{◌≡◌};

use crate::checked::Checked;
use crate::lacks::Lacks;
use pm_lines::TextFault;
use std::alloc::Global;
use std::marker::Model;

/// The most bytes that a line of a log may have, with a carriage return.
pub const MAX_LINE: usize = 4096;

/// A log as its bytes come.
#[derive(Debug, Drop)]
pub struct LogText {
    // The bytes of the line that goes on, as far as they tell what it says.
    line: Vec<u8>,
    // How many bytes were taken.
    taken: u64,
    checked: Checked,
}

impl Model for LogText {
    ghost use Rattle.std.specs.Prelude.{◌+◌, ◌≤◌, length};
    ghost use Rattle.pm_log.specs.Texts.{Kept};

    ghost Value = { Kept };

    ghost view = { λ t. record { line = t.line.items; taken = t.taken; checked = t.checked } };

    ghost invariant = { λ t. t.checked.ended + length t.line.items ≤ t.taken };
}

impl LogText {
    ghost use Rattle.std.specs.Prelude.{◌+◌, ◌<◌, ◌≤◌, ◌^◌, [], length, IfErr, OnErr, OnOk};
    ghost use Rattle.std.specs.List.{fold};
    ghost use Rattle.pm_log.specs.Logs.{at_end, with_line};
    ghost use Rattle.pm_log.specs.Texts.{ended_text, last_line_ended, no_byte, with_byte};

    /// No byte, for a receiver who lets parts lack these registers. Takes no memory.
    pub fn new(alloc: Global, allowed: &Lacks) -> LogText
        ensures { result ≡ no_byte allowed.now.parts }
    {
        LogText {
            line: Vec::new(alloc),
            taken: 0,
            checked: Checked::new(allowed),
        }
    }

    /// How many bytes were taken.
    pub fn taken(&self) -> u64
        ensures { result ≡ self.now.taken }
    {
        self.taken
    }

    /// What the lines come to that ended.
    pub fn checked(&self) -> &Checked
        ensures { result.now ≡ self.now.checked }
    {
        &self.checked
    }

    /// Takes further bytes. Takes memory for the line that goes on, and for a packet.
    #[tactic(auto, unfolding(crate::specs::Texts::with_byte))]
    pub fn take(&mut self, alloc: Global, bytes: &[u8]) -> Result<(), TextFault>
        requires { self.old.taken + length bytes.now < 2 ^ 64 }
        ensures taken { OnOk result (self.new ≡ fold with_byte self.old bytes.now) }
        ensures memory { IfErr result (λ fault. fault ≡ TextFault.Memory) }
        ensures some { OnErr result (0 < length bytes.now) }
    {
        for byte in bytes {
            self.take_byte(alloc, *byte)?;
        }
        Ok(())
    }

    // Takes one byte more.
    #[tactic(auto, unfolding(crate::specs::Texts::with_byte, crate::specs::Logs::with_line, crate::specs::Logs::max_line))]
    fn take_byte(&mut self, alloc: Global, byte: u8) -> Result<(), TextFault>
        requires { self.old.taken + 1 < 2 ^ 64 }
        ensures taken { OnOk result (self.new ≡ with_byte self.old byte) }
        ensures memory { IfErr result (λ fault. fault ≡ TextFault.Memory) }
    {
        if byte == b'\n' {
            self.checked.take(alloc, &self.line)?;
            self.line.clear();
        } else if self.line.len() <= MAX_LINE {
            self.line.push(byte)?;
        }
        self.taken += 1;
        Ok(())
    }

    /// Ends the text: a last line without a line feed ends here.
    pub fn finish(&mut self, alloc: Global) -> Result<(), TextFault>
        requires { self.old.taken + 1 < 2 ^ 64 }
        ensures taken { OnOk result (self.new.checked.log ≡ ended_text (last_line_ended self.old)) }
        ensures memory { IfErr result (λ fault. fault ≡ TextFault.Memory) }
    {
        self.end_line(alloc)?;
        self.checked.end();
        Ok(())
    }

    // A line that goes on ends.
    #[tactic(auto, unfolding(crate::specs::Logs::with_line))]
    fn end_line(&mut self, alloc: Global) -> Result<(), TextFault>
        requires { self.old.taken + 1 < 2 ^ 64 }
        ensures ended { OnOk result (self.new.checked ≡ last_line_ended self.old) }
        ensures line { OnOk result (self.new.line ≡ []) }
        ensures taken { OnOk result (self.new.taken ≡ self.old.taken) }
        ensures memory { IfErr result (λ fault. fault ≡ TextFault.Memory) }
    {
        if !self.line.is_empty() {
            self.checked.take(alloc, &self.line)?;
            self.line.clear();
        }
        Ok(())
    }
}
