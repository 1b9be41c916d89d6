//! The laws of a converter as a new host may find it: each is the contract of a function that does nothing when it runs.

ghost use Rattle.pm_world.specs.Parts.{LivesLeaveParts, PartsAreReached, StartsAreParts, StoredConfigsStartSo};

use crate::laws::{
    events_are_lived, lives_are_followed, lives_are_orders, settings_move_by_the_open_job,
};
use pm_device::{pasts_are_followed, words_have_an_origin};
use pm_model::{orders_stay_in_their_cells, settings_are_a_map};
use pm_table::{cells_are_told_apart, cells_have_places};

/// Some life of a converter that started with what is stored led to any words that a converter holds and has stored, each
/// one that its cell takes. Its host has just started, and has however many passes. The converter never restarted in it,
/// and each word that was ordered for an output's register is the one that is held.
pub fn parts_are_reached()
    ensures { PartsAreReached }
{
    cells_are_told_apart();
    cells_have_places();
    settings_are_a_map();
    events_are_lived();
    lives_are_followed();
    settings_move_by_the_open_job();
}

/// What any life leaves is a converter beside which a new host may begin, with however many passes.
pub fn lives_leave_parts()
    ensures { LivesLeaveParts }
{
    cells_are_told_apart();
    cells_have_places();
    settings_are_a_map();
    events_are_lived();
    lives_are_followed();
    settings_move_by_the_open_job();
    lives_are_orders();
    orders_stay_in_their_cells();
    words_have_an_origin();
    pasts_are_followed();
}

/// A converter as its configuration makes it is one beside which a new host may begin.
pub fn starts_are_parts()
    ensures { StartsAreParts }
{
    cells_are_told_apart();
    cells_have_places();
    settings_are_a_map();
    events_are_lived();
    lives_are_followed();
    settings_move_by_the_open_job();
}

/// The configuration that starts with what is stored does so, and its VOUT_MODE bytes are those that it was made from.
pub fn stored_configs_start_so()
    ensures { StoredConfigsStartSo }
{}
