//! What the host calls possible is exact, for all cells of all outputs together.

ghost use Rattle.std.specs.Prelude.{◌≡◌, ◌∷◌, ◌<◌, ◌≤◌, ◌*◌, ℕ, List, None, false, IfOk, IfSome, OnSome, length, reverse};
ghost use Rattle.std.specs.List.{list_any};
ghost use Rattle.pm_device.specs.declared.config.Config.{Config as AnyConfig};
ghost use Rattle.pm_device.specs.Start.{start_word};
ghost use Rattle.pm_host.specs.Marks.{marks};
ghost use Rattle.pm_world.specs.declared.event.Event.{Event as Happening};
ghost use Rattle.pm_world.specs.declared.event.Event.TheVariants.{Check};
ghost use Rattle.pm_law_tests.specs.ByName.{BeginsShort, CameInBytes, IsShort};
ghost use Rattle.pm_world.specs.Confirmed.{restarts_converter};
ghost use Rattle.pm_world.specs.Life.{life};
ghost use Rattle.pm_world.specs.OpenLists.{is_other, lists_other as spec_lists_other};
ghost use Rattle.pm_world.specs.Setup.{world_fault, setup_of};
ghost use Rattle.pm_world.specs.Uncertainty.{AreOfBytes, AreOpen, ArePossible, AreWordsChosen, Choice, Leaves, due_before, since_restart, witness_events, witness_start};

use crate::further::{run_all, run_and_step};
use crate::laws::laws_by_name;
use pm_device::Config;
use pm_host::Possible;
use pm_table::Cell;
use pm_world::{
    Event, SetupFault, World, answers_come_in_bytes, events_are_lived, lists_say_enough,
    lives_are_followed, open_lists_are_followed, possible_words_are_exact, run_open,
};

/// Let the converter not restart in these events, and WRITE_PROTECT be ordered and read only as 00h. Words that are
/// all possible are then left together by a named life, whose host hears just what this one heard.
pub fn words_that_are_possible(
    c: Config,
    passes: u8,
    events: &[Event],
    more: &Event,
) -> Result<Option<World>, SetupFault>
    ensures { IfOk result (λ found. IfSome found (λ world. (chosen : Choice) →
        list_any restarts_converter (more.now ∷ reverse events.now) ≡ false →
        let entries = since_restart (life c passes (more.now ∷ reverse events.now)).entries in
        let told = marks (setup_of c passes) entries in
        AreOpen told → ArePossible c world.host chosen →
        Leaves c passes entries chosen (witness_start c (due_before chosen told)) (witness_events (setup_of c passes) chosen entries))) }
{
    lists_say_enough();
    possible_words_are_exact();
    run_and_step(c, passes, events, more)
}

/// The life that leaves possible words begins in a world that can be made (`made`), and has at most twice as many
/// events as the run and the step together (`short`).
pub fn a_world_that_can_be_made(
    c: Config,
    passes: u8,
    events: &[Event],
    more: &Event,
) -> Result<Option<World>, SetupFault>
    ensures made { IfOk result (λ found. IfSome found (λ world. (chosen : Choice) →
        list_any restarts_converter (more.now ∷ reverse events.now) ≡ false →
        let entries = since_restart (life c passes (more.now ∷ reverse events.now)).entries in
        let told = marks (setup_of c passes) entries in
        AreOpen told → ArePossible c world.host chosen →
        world_fault (witness_start c (due_before chosen told)) passes ≡ None)) }
    ensures short { (chosen : Choice) → length (witness_events (setup_of c passes) chosen
        (since_restart (life c passes (more.now ∷ reverse events.now)).entries)) ≤ 2 * length (more.now ∷ reverse events.now) }
{
    lists_say_enough();
    words_that_are_possible(c, passes, events, more)
}

/// Words are possible if any life leaves them whose host hears just what this one heard.
pub fn words_that_a_life_leaves(
    c: Config,
    passes: u8,
    events: &[Event],
    more: &Event,
) -> Result<Option<World>, SetupFault>
    ensures { IfOk result (λ found. IfSome found (λ world. (retold : List Happening) (chosen : Choice) (other : AnyConfig) →
        Leaves c passes (since_restart (life c passes (more.now ∷ reverse events.now)).entries) chosen other retold →
        ArePossible c world.host chosen)) }
{
    possible_words_are_exact();
    run_and_step(c, passes, events, more)
}

/// What came back since the host's last restart were bytes.
pub fn answers_in_bytes(
    c: Config,
    passes: u8,
    events: &[Event],
    more: &Event,
) -> Result<Option<World>, SetupFault>
    ensures { IfOk result (λ found. OnSome found
        (AreOfBytes (since_restart (life c passes (more.now ∷ reverse events.now)).entries))) }
{
    answers_come_in_bytes();
    run_and_step(c, passes, events, more)
}

/// The words with which the life begins that leaves chosen words are below 2^16, if the chosen ones are (`words`).
/// What came back since the host's last restart were bytes (`came`).
pub fn words_that_a_life_starts_with(
    c: Config,
    passes: u8,
    events: &[Event],
    more: &Event,
) -> Result<Option<World>, SetupFault>
    ensures came { IfOk result (λ found. OnSome found (CameInBytes c passes (more.now ∷ reverse events.now))) }
    ensures words { IfOk result (λ found. OnSome found ((chosen : Choice) → IsShort c chosen →
        BeginsShort c passes (more.now ∷ reverse events.now) chosen)) }
{
    // law: answers come in bytes (`came`); a life that leaves words of two bytes begins with such words (`words`)
    laws_by_name();
    match run_and_step(c, passes, events, more)? {
        Some(world) => Ok(Some(world)),
        None => Ok(None),
    }
}

/// Each word with which the life begins that leaves chosen words is below 2^16, if those are: `IsShort` and
/// `BeginsShort`, opened.
#[tactic(auto, unfolding(crate::specs::ByName::IsShort, crate::specs::ByName::BeginsShort))]
pub fn words_that_have_two_bytes(
    c: Config,
    passes: u8,
    events: &[Event],
    more: &Event,
) -> Result<Option<World>, SetupFault>
    ensures { IfOk result (λ found. OnSome found ((chosen : Choice) → AreWordsChosen c chosen →
        let told = marks (setup_of c passes) (since_restart (life c passes (more.now ∷ reverse events.now)).entries) in
        AreWordsChosen c (start_word (witness_start c (due_before chosen told))))) }
{
    words_that_a_life_starts_with(c, passes, events, more)
}

/// The promises of [`words_that_a_life_starts_with`] after a run, without a further event.
pub fn words_that_a_run_starts_with(
    c: Config,
    passes: u8,
    events: &[Event],
) -> Result<Option<World>, SetupFault>
    ensures came { IfOk result (λ found. OnSome found (CameInBytes c passes (reverse events.now))) }
    ensures words { IfOk result (λ found. OnSome found ((chosen : Choice) → IsShort c chosen →
        BeginsShort c passes (reverse events.now) chosen)) }
{
    // law: answers come in bytes (`came`); a life that leaves words of two bytes begins with such words (`words`)
    laws_by_name();
    match run_all(c, passes, events)? {
        Some(world) => Ok(Some(world)),
        None => Ok(None),
    }
}

/// A life leaves any words that the host calls possible, if the run took all events, says that they leave
/// WRITE_PROTECT open, and none of them restarts the converter (`left`). What came back since the host's last restart
/// were bytes (`came`).
pub fn words_of_an_open_list(
    c: Config,
    passes: u8,
    events: &[Event],
) -> Result<Option<World>, SetupFault>
    ensures left { IfOk result (λ found. IfSome found (λ world. (chosen : Choice) →
        list_any restarts_converter (reverse events.now) ≡ false → ArePossible c world.host chosen →
        let entries = since_restart (life c passes (reverse events.now)).entries in
        let told = marks (setup_of c passes) entries in
        Leaves c passes entries chosen (witness_start c (due_before chosen told)) (witness_events (setup_of c passes) chosen entries))) }
    ensures came { IfOk result (λ found. OnSome found (AreOfBytes (since_restart (life c passes (reverse events.now)).entries))) }
{
    lists_say_enough();
    possible_words_are_exact();
    answers_come_in_bytes();
    match run_open(c, passes, events)? {
        (world, None, true) => Ok(Some(world)),
        _ => Ok(None),
    }
}

/// A list that is open stays open with a check, if no other word than 00h is possible for WRITE_PROTECT.
pub fn a_list_that_stays_open(
    c: Config,
    passes: u8,
    events: &[Event],
    cell: Cell,
) -> Result<Option<World>, SetupFault>
    ensures { IfOk result (λ found. OnSome found (AreOpen (marks (setup_of c passes)
        (since_restart (life c passes (Check cell ∷ reverse events.now)).entries)))) }
{
    lives_are_followed();
    events_are_lived();
    open_lists_are_followed();
    let (mut world, stop, open) = run_open(c, passes, events)?;
    if stop.is_some() || !open {
        return Ok(None);
    }
    if world.step(&Event::Check(cell)).is_err() {
        return Ok(None);
    }
    if lists_other(&world.host().possible(Cell::Protect)) {
        return Ok(None);
    }
    Ok(Some(world))
}

// Another word than 00h is listed.
fn lists_other(possible: &Possible) -> bool
    ensures { result ≡ spec_lists_other possible.now }
{
    match possible {
        Possible::Any => false,
        Possible::Words(words) => has_other(words.as_slice()),
    }
}

// One of the words isn't 00h.
fn has_other(words: &[u16]) -> bool
    ensures { result ≡ list_any is_other words.now }
{
    words.iter().any(|word| *word != 0)
}
