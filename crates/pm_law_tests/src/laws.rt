//! Some laws of host and converter, each as a named statement that shows all its arguments, so that a caller gets it
//! without writing a proof.
//!
//! A caller's prover doesn't find a law that leaves some of its arguments to be guessed, as how often a check was tried,
//! or that says something long. Here what such a law says has a name, which stays closed until a proof opens it, and
//! beside which all arguments stand. It takes no memory, and does nothing when it runs.
ghost use Rattle.pm_law_tests.specs.ByName.{LawsByName};

use pm_world::{
    answers_come_in_bytes, bands_are_exact, honest_orders_go_through, possible_words_are_exact,
    ways_are_followed,
};

/// What these laws say: [`honest_orders_go_through`] of the events that are taken (`ahead`), [`ways_are_followed`] of an
/// order on its way (`through`), [`bands_are_exact`] (`reached`), [`answers_come_in_bytes`] (`came`), and [`possible_words_are_exact`] of the
/// words that its life begins with (`words`).
pub fn laws_by_name()
    ensures { LawsByName }
{
    honest_orders_go_through();
    ways_are_followed();
    bands_are_exact();
    answers_come_in_bytes();
    possible_words_are_exact();
}
