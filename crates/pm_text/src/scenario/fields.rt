//! The words of a line, each read as what stands at its place.
ghost use Rattle.std.specs.Prelude.{◌≡◌, true, false, Ok, Err, [], ◌∷◌, IfNone, MatchOption, MatchResult, List, ℕ};
ghost use Rattle.pm_lines.specs.Digits.{hex_of, signed_of, small_of};
ghost use Rattle.pm_lines.specs.Lines.{is_one_word, words_of};
ghost use Rattle.pm_text.specs.Kinds.{is_word, output_or_device};
ghost use Rattle.pm_text.specs.Readers.{IsNotNext, Reads, field, word as next_word};
ghost use Rattle.pm_text.specs.declared.scenario.fault.ScenarioFault.TheVariants.{Syntax, BadHex};

use crate::scenario::fault::ScenarioFault;
use pm_lines::{Line, Words, read_byte, read_i8, read_i16, read_i64, read_u8, read_word};
use std::marker::Model;

/// The words that are left of a line. A call takes the next one, and answers X1 if there is none.
#[derive(Debug, Drop)]
pub struct Fields<'a> {
    words: Words<'a>,
}

impl<'a> Model for Fields<'a> {
    ghost use Rattle.pm_lines.specs.Lines.{WordsLeft};

    ghost Value = { WordsLeft };

    ghost view = { λ f. f.words };
}

impl<'a> Fields<'a> {
    /// All words of a line.
    pub fn new(line: Line<'a>) -> Fields<'a>
        ensures line { result.line ≡ line.entry.number }
        ensures words { result.words ≡ words_of line.entry.text.now }
    {
        Fields {
            words: Words::new(line),
        }
    }

    /// The next word.
    #[tactic(auto, unfolding(crate::specs::Readers::word))]
    pub fn word(&mut self) -> Result<&'a [u8], ScenarioFault>
        ensures read { MatchResult result
            (λ text. next_word self.old ≡ Ok (text.now, self.new))
            (λ fault. next_word self.old ≡ Err fault) }
        ensures line { self.new.line ≡ self.old.line }
    {
        match self.words.next_word() {
            Some(word) => Ok(word),
            None => Err(self.syntax()),
        }
    }

    /// The next word, if there is one.
    pub fn next_word(&mut self) -> Option<&'a [u8]>
        ensures words { MatchOption result (self.old.words ≡ [])
            (λ word. self.old.words ≡ word.now ∷ self.new.words) }
        ensures end { IfNone result (self.new.words ≡ []) }
        ensures line { self.new.line ≡ self.old.line }
    {
        self.words.next_word()
    }

    /// Takes the next word if it is this one, and says whether it was. Any other stays.
    pub fn takes(&mut self, name: &str) -> bool
        requires { is_one_word name.now ≡ true }
        ensures taken { result ≡ true → next_word self.old ≡ Ok (name.now, self.new) }
        ensures other { result ≡ false → IsNotNext name.now self.old }
        ensures kept { result ≡ false → self.new ≡ self.old }
    {
        self.words.take_word(name.as_bytes())
    }

    /// X1 for this line.
    pub fn syntax(&self) -> ScenarioFault
        ensures { result ≡ Syntax self.now.line }
    {
        ScenarioFault::Syntax(self.words.line())
    }

    /// X2 for this line.
    pub fn bad_hex(&self) -> ScenarioFault
        ensures { result ≡ BadHex self.now.line }
    {
        ScenarioFault::BadHex(self.words.line())
    }

    /// Takes this very word: X1 for another.
    pub fn keyword(&mut self, name: &str) -> Result<(), ScenarioFault>
        ensures { Reads result self.new (field Syntax (is_word name.now) self.old) }
    {
        let word = self.word()?;
        if word == name.as_bytes() {
            Ok(())
        } else {
            Err(self.syntax())
        }
    }

    /// A decimal number of 0 to 255: otherwise X1.
    pub fn small_number(&mut self) -> Result<u8, ScenarioFault>
        ensures { Reads result self.new (field Syntax small_of self.old) }
    {
        let word = self.word()?;
        match read_u8(word) {
            Some(number) => Ok(number),
            None => Err(self.syntax()),
        }
    }

    /// A decimal number that is an `i8`: otherwise X1.
    pub fn signed_8(&mut self) -> Result<i8, ScenarioFault>
        ensures { Reads result self.new (field Syntax (signed_of 8) self.old) }
    {
        let word = self.word()?;
        match read_i8(word) {
            Some(number) => Ok(number),
            None => Err(self.syntax()),
        }
    }

    /// A decimal number that is an `i16`: otherwise X1.
    pub fn signed_16(&mut self) -> Result<i16, ScenarioFault>
        ensures { Reads result self.new (field Syntax (signed_of 16) self.old) }
    {
        let word = self.word()?;
        match read_i16(word) {
            Some(number) => Ok(number),
            None => Err(self.syntax()),
        }
    }

    /// A decimal number that is an `i64`: otherwise X1.
    pub fn signed_64(&mut self) -> Result<i64, ScenarioFault>
        ensures { Reads result self.new (field Syntax (signed_of 64) self.old) }
    {
        let word = self.word()?;
        match read_i64(word) {
            Some(number) => Ok(number),
            None => Err(self.syntax()),
        }
    }

    /// A byte of two hexadecimal digits: otherwise X2.
    pub fn hex_byte(&mut self) -> Result<u8, ScenarioFault>
        ensures { Reads result self.new (field BadHex (hex_of 2) self.old) }
    {
        let word = self.word()?;
        match read_byte(word) {
            Some(number) => Ok(number),
            None => Err(self.bad_hex()),
        }
    }

    /// A word of four hexadecimal digits: otherwise X2.
    pub fn hex_word(&mut self) -> Result<u16, ScenarioFault>
        ensures { Reads result self.new (field BadHex (hex_of 4) self.old) }
    {
        let word = self.word()?;
        match read_word(word) {
            Some(number) => Ok(number),
            None => Err(self.bad_hex()),
        }
    }

    /// An output's number, 0 to 255, or `-` for the device: otherwise X1.
    pub fn output_or_device(&mut self) -> Result<Option<u8>, ScenarioFault>
        ensures { Reads result self.new (field Syntax output_or_device self.old) }
    {
        let word = self.word()?;
        if word == b"-".as_slice() {
            return Ok(None);
        }
        match read_u8(word) {
            Some(output) => Ok(Some(output)),
            None => Err(self.syntax()),
        }
    }

    /// The line's end: X1 if a word is left.
    pub fn end(mut self) -> Result<(), ScenarioFault>
        ensures { MatchResult result (λ _. self.entry.words ≡ [])
            (λ fault. (fault ≡ Syntax self.entry.line) × (word : List ℕ) × (words : List (List ℕ))
            × (self.entry.words ≡ word ∷ words)) }
    {
        match self.words.next_word() {
            Some(_surplus) => Err(self.syntax()),
            None => Ok(()),
        }
    }
}
