//! A law of scenarios, over the definitions.

ghost use Rattle.pm_text.specs.Laws.{LowestWordsCutNothing};

/// VOUT_MIN of an output whose text doesn't name it, as in version 1, cuts nothing: its value is above
/// that of no word.
pub fn lowest_words_cut_nothing()
    ensures { LowestWordsCutNothing }
{}
