//! Laws of lives as they are: a host beside any part, with anything heard between its frames that changes no word and no store.
//!
//! `pm_world`'s laws speak of a life from a converter's start, in which nothing is heard but the frames of jobs. Here a host begins
//! beside a part with any words held and stored, any PAGE, any readings and any latched status bits, and anybody reads any code of
//! it meanwhile.
//!
//! There a part takes a write when it hears it. A part that takes a write late has laws of its own, over a part with a queue: each
//! write that it heard may be taken while at most some frames more end, in any order. Two promises stay in a weaker form: `possible`,
//! gathered over these frames, and `confirmed`, once that many frames ended without a write of the register.
//!
//! Tests: crates/pm_law_tests
#![tactic(auto)]

mod laws;

pub use laws::{
    bands_beside, confirmed_beside, differing_beside, exact_beside, formats_beside,
    honest_orders_beside, late_confirmations_are_held, late_words_are_own,
    late_words_were_possible, limits_beside, open_jobs_end_beside, own_words_beside,
    parts_stay_parts, possible_beside, reads_keep_settings, same_settings_live_alike, seen_beside,
    settings_move_beside, surveys_beside,
};
