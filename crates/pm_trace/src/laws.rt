//! The laws of the decoder and of values, over nothing but definitions: contracts of functions that do nothing.

ghost use Rattle.pm_trace.specs.Laws.{MicrovoltsAreTheFloor, PiecesDoNotMatter};

/// How a trace is cut into pieces doesn't matter: the lines that a decoder shows are those of the pieces
/// joined if nothing is refused, and otherwise the first of them; and it counts what these lines say. What it
/// keeps is a look back over its bytes.
pub fn pieces_do_not_matter()
    ensures { PiecesDoNotMatter }
{}

/// The microvolts that are shown of a voltage are the most whole microvolts that aren't above it.
pub fn microvolts_are_the_floor()
    ensures { MicrovoltsAreTheFloor }
{}
