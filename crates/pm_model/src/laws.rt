//! The laws of the map of cells and of the order machine, over nothing but definitions: each is the contract
//! of a function that does nothing, or calls other laws.

ghost use Rattle.pm_model.specs.Laws.{CommandsAreLimited, OrdersStayInTheirCells, OutputsStandAlone, SettingsAreAMap};

use pm_table::{cells_are_told_apart, cells_have_places};

/// The words of the cells are a map, for cells of a converter with eight outputs at most:
///
/// - `read`: a cell that was written has the new word, and every other cell its old one;
/// - `kept`, `again`, `unchanged`: a write leaves a word for each cell; the same write a second
///   time changes nothing, and neither does that of the existing word;
/// - `made`, `one`: any words can be given to the cells, and no two maps give each cell the same one;
/// - `whole`, `outputs`, `protect`: the outputs' words can be had from another map, with WRITE_PROTECT's
///   own word.
pub fn settings_are_a_map()
    ensures { SettingsAreAMap }
{
    cells_have_places();
    cells_are_told_apart();
}

/// What an output commands, and whether it is cut, depends on only three words: the one that OPERATION
/// selects, that of VOUT_MAX and that of VOUT_MIN (`commanded`, `cut`). They are the output's own (`own`).
#[tactic(auto, unfolding(crate::specs::Commanded::commanded, crate::specs::Commanded::is_cut, crate::specs::Commanded::selected))]
pub fn outputs_stand_alone()
    ensures { OutputsStandAlone }
{}

/// No output commands a value above that of its VOUT_MAX (`most`), and none below that of its VOUT_MIN
/// unless that is above the one of VOUT_MAX (`least`).
#[tactic(auto, unfolding(crate::specs::Commanded::commanded))]
pub fn commands_are_limited()
    ensures { CommandsAreLimited }
{}

/// Each cell that there is has its start word or one that was accepted for that very cell (`own`), in each
/// run of the order machine, which starts with a word for each cell of at most eight outputs. The store has
/// such words, too (`stored`), and keeps the start word of WRITE_PROTECT (`protection`). A pending job is one
/// that was accepted (`pending`), and the start stays what it was (`start`).
pub fn orders_stay_in_their_cells()
    ensures { OrdersStayInTheirCells }
{
    // A write reaches the cell that the order names, and no other.
    settings_are_a_map();
    cells_are_told_apart();
}
