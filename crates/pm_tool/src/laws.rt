//! Laws over the definitions: functions that do nothing, whose contracts are facts on every value.

ghost use Rattle.pm_tool.specs.NumberText.{NumberHasOneText};

/// What `number` writes is a function of its three texts: of a format that can be, a question has
/// one text at most.
pub fn number_has_one_text()
    ensures { NumberHasOneText }
{}
