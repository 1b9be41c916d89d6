//! What steps of several outputs are worth after a run, whatever the events of the run and those of the steps.

ghost use Rattle.std.specs.Prelude.{IfOk, OnSome, reverse};
ghost use Rattle.pm_sequence_laws.specs.Climb.{ClimbsAreStairs};
ghost use Rattle.pm_sequence_laws.specs.Due.{MovesAreDue};
ghost use Rattle.pm_sequence_laws.specs.Followed.{StairsAreFollowed};
ghost use Rattle.pm_sequence_laws.specs.Stairs.{KeepsStairs};
ghost use Rattle.pm_law_tests.specs.Stairs.{CellsTake, ClimbsReturn, ComesBack, StopsHaveAWayBack};

use crate::further::run_all;
use pm_device::Config;
use pm_sequence_laws::{
    cells_take_what_is_ordered, climbs_are_stairs, climbs_come_back, moves_are_due,
    stairs_are_followed, stairs_go_back, stairs_hold_in_lives,
};
use pm_world::{Event, SetupFault, World};

/// Each cell has taken what was ordered for it in a run, and nothing else.
pub fn a_cell_that_takes_orders(
    c: Config,
    passes: u8,
    events: &[Event],
) -> Result<Option<World>, SetupFault>
    ensures { IfOk result (λ found. OnSome found (CellsTake c passes (reverse events.now))) }
{
    cells_take_what_is_ordered();
    run_all(c, passes, events)
}

/// The outputs stand after a run at the stair of the steps that have begun, or at the one before.
pub fn steps_that_went_up(
    c: Config,
    passes: u8,
    events: &[Event],
) -> Result<Option<World>, SetupFault>
    ensures { IfOk result (λ found. OnSome found (KeepsStairs c passes (reverse events.now))) }
{
    stairs_hold_in_lives();
    run_all(c, passes, events)
}

/// There is a way back after a run that stopped anywhere. Each register has its word of before after a run that went it.
pub fn steps_that_went_back(
    c: Config,
    passes: u8,
    events: &[Event],
) -> Result<Option<World>, SetupFault>
    ensures stops { IfOk result (λ found. OnSome found (StopsHaveAWayBack c passes (reverse events.now))) }
    ensures back { IfOk result (λ found. OnSome found (ComesBack c passes (reverse events.now))) }
{
    stairs_go_back();
    run_all(c, passes, events)
}

/// A caller's own loop carries out steps event by event.
pub fn steps_event_by_event()
    ensures { StairsAreFollowed }
{
    stairs_are_followed();
}

/// A caller's own loop asks for what the stairs name, which is due, and so carries out its steps.
pub fn steps_by_the_stairs()
    ensures due { MovesAreDue }
    ensures climbs { ClimbsAreStairs }
{
    moves_are_due();
    climbs_are_stairs();
}

/// Each register has its word of before after a run that stopped anywhere and went back by the stairs.
pub fn stairs_that_went_back(
    c: Config,
    passes: u8,
    events: &[Event],
) -> Result<Option<World>, SetupFault>
    ensures { IfOk result (λ found. OnSome found (ClimbsReturn c passes (reverse events.now))) }
{
    climbs_come_back();
    run_all(c, passes, events)
}
