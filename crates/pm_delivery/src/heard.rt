//! What came of one question of a look.

ghost use Rattle.std.specs.Prelude.{◌≡◌};
ghost use Rattle.pm_delivery.specs.Heard.{asked_more as spec_asked_more, heard_after, is_question_due, is_good};

/// What came of one question, as plain numbers. What was never asked has zeros.
#[repr(C)]
#[derive(Clone, Copy, Debug, PartialEq, Eq)]
pub struct Heard {
    /// How often it was asked.
    pub asked: u8,
    /// What was wrong with the last answer: 0 if it was good, 1 if none came, 31h to 35h for F1 to F5.
    pub fault: u8,
    /// The word or byte of a good answer, otherwise 0.
    pub word: u16,
}

impl Heard {
    /// It wasn't asked.
    pub const NOTHING: Heard = Heard {
        asked: 0,
        fault: 0,
        word: 0,
    };

    /// Whether a good answer came.
    pub fn is_good(self) -> bool
        ensures { result ≡ is_good self }
    {
        self.asked != 0 && self.fault == 0
    }

    /// Whether it is to be asked: no good answer came, and it was asked fewer times than this.
    pub(crate) fn is_due(self, passes: u8) -> bool
        ensures { result ≡ is_question_due passes self }
    {
        !self.is_good() && self.asked < passes
    }

    /// What came of the question with one answer more: its payload, a byte or a word with its low byte first, or the number of what was wrong.
    pub(crate) fn after(self, answer: Result<u16, u8>) -> Heard
        ensures { result ≡ heard_after self answer }
    {
        let asked = asked_more(self.asked);
        match answer {
            Ok(word) => Heard {
                asked,
                fault: 0,
                word,
            },
            Err(fault) => Heard {
                asked,
                fault,
                word: 0,
            },
        }
    }
}

// How often it was asked, once more; 255 at most.
fn asked_more(asked: u8) -> u8
    ensures { result ≡ spec_asked_more asked }
{
    if asked < 255 { asked + 1 } else { 255 }
}
