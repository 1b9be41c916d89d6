//! The laws of the tables, over nothing but definitions: each is the contract of a function that does
//! nothing. What each says stands in the definitions, under its name.

ghost use Rattle.pm_table.specs.Laws.{CellsAreToldApart, CellsHavePlaces, PayloadsAreShort, RegistersAreInTheTable};

/// No payload in the command table is longer than two bytes: of codes of any size.
pub fn payloads_are_short()
    ensures { PayloadsAreShort }
{}

/// Two cells are one exactly if `same_cell` says so.
pub fn cells_are_told_apart()
    ensures { CellsAreToldApart }
{}

/// Each cell of at most eight outputs has a place of its own, and each place a cell.
pub fn cells_have_places()
    ensures { CellsHavePlaces }
{}

/// What the command table says of the codes of the registers.
#[tactic(auto, unfolding(crate::specs::Commands::line_of))]
pub fn registers_are_in_the_table()
    ensures { RegistersAreInTheTable }
{}
