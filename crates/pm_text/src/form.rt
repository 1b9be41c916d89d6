//! The versions of a scenario's text.

ghost use Rattle.std.specs.Prelude.{◌≡◌};
ghost use Rattle.pm_text.specs.Kinds.{form_named, form_of, registers_of, version_of};

use pm_table::Reg;

// How many registers there were when the first form was made: VOUT_MIN and those after it came later.
const FIRST_REGISTERS: usize = 5;

/// The form of a scenario's text, which its first line names. It says which lines and which names of
/// registers a scenario may have, and which lines its report has.
#[derive(Clone, Copy, Debug, PartialEq, Eq)]
pub enum Form {
    /// `scenario 1`, which knows neither VOUT_MIN nor the user store: no output line, event or report
    /// names the one, and no event is `store` or `restore`.
    First,
    /// `scenario 2`.
    Second,
}

impl Form {
    /// The newest form, which names every register. Sessions of lines speak it.
    pub const NEWEST: Form = Form::Second;

    /// The form of a text that calls itself so.
    pub(crate) fn named(name: &[u8]) -> Option<Form>
        ensures { result ≡ form_named name.now }
    {
        if name == b"1".as_slice() {
            Some(Form::First)
        } else if name == b"2".as_slice() {
            Some(Form::Second)
        } else {
            None
        }
    }

    /// The version that it is.
    pub(crate) fn version(self) -> u8
        ensures { result ≡ version_of self }
    {
        match self {
            Form::First => 1,
            Form::Second => 2,
        }
    }

    /// The form of a version: of every one but 1 the second.
    pub(crate) fn of_version(version: u8) -> Form
        ensures { result ≡ form_of version }
    {
        if version == 1 {
            Form::First
        } else {
            Form::Second
        }
    }

    /// The registers that texts of this form name, in the order of an output's lines.
    pub(crate) fn registers(self) -> &'static [Reg]
        ensures { result.now ≡ registers_of self }
    {
        match self {
            Form::First => &Reg::ALL[..FIRST_REGISTERS],
            Form::Second => &Reg::ALL,
        }
    }
}
