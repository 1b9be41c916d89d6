//! What tests ask of a world, by calls that promise nothing.

use pm_core_tests::BASE;
use pm_device::{Config, Ending, Heard};
use pm_host::{JobEnd, Possible, Standing};
use pm_table::Cell;
use pm_world::{Cause, Event, SetupFault, Stop, World};

/// What tests ask of a world, by calls that promise nothing: no test's proof carries what a call of the world
/// promises, which no test needs.
pub trait Look {
    /// The base configuration.
    fn base() -> Config;

    /// The base configuration with another WRITE_PROTECT.
    fn with_protect(protect: u16) -> Config;

    /// A world at its start.
    fn begin(config: Config, passes: u8) -> Result<World, SetupFault>;

    /// A world after events, up to the first that isn't taken.
    fn live(
        config: Config,
        passes: u8,
        events: &[Event],
    ) -> Result<(World, Option<Stop>), SetupFault>;

    /// Lets an event happen.
    fn meets(&mut self, event: &Event) -> Result<(), Cause>;

    /// The word of a cell; 0 if there is no such cell.
    fn word(&self, cell: Cell) -> u16;

    /// The word of an output's cell in the user store; 0 if there is no such cell.
    fn stored(&self, cell: Cell) -> u16;

    /// STATUS_CML.
    fn status_cml(&self) -> u8;

    /// What the converter answers to bytes.
    fn replies(&self, bytes: &[u8], ending: Ending) -> Heard;

    /// Whether these bytes are being sent; with no bytes, whether nothing is.
    fn is_sending(&self, bytes: &[u8]) -> bool;

    /// How the last job since the start of the host ended; nothing if it is open or there is none.
    fn ended(&self) -> Option<JobEnd>;

    /// Whether the host saw a restart.
    fn sees_restart(&self) -> bool;

    /// What the host says of a cell; nothing if there is no such cell.
    fn says(&self, cell: Cell) -> Option<Standing>;

    /// Whether the host says that a cell may hold exactly these words, in this order; any word if none is
    /// given.
    fn may_hold(&self, cell: Cell, words: &[u16]) -> bool;
}

impl Look for World {
    fn base() -> Config {
        BASE
    }

    fn with_protect(protect: u16) -> Config {
        Config { protect, ..BASE }
    }

    fn begin(config: Config, passes: u8) -> Result<World, SetupFault> {
        World::new(config, passes)
    }

    fn live(
        config: Config,
        passes: u8,
        events: &[Event],
    ) -> Result<(World, Option<Stop>), SetupFault> {
        World::run(config, passes, events)
    }

    fn meets(&mut self, event: &Event) -> Result<(), Cause> {
        self.step(event)
    }

    fn word(&self, cell: Cell) -> u16 {
        match cell {
            Cell::Out(output, _) if output >= self.device().count() => 0,
            _ => self.device().word(cell),
        }
    }

    fn stored(&self, cell: Cell) -> u16 {
        match cell {
            Cell::Out(output, _) if output < self.device().count() => self.device().stored(cell),
            _ => 0,
        }
    }

    fn status_cml(&self) -> u8 {
        self.device().status_cml()
    }

    fn replies(&self, bytes: &[u8], ending: Ending) -> Heard {
        self.device().reply(bytes, ending)
    }

    fn is_sending(&self, bytes: &[u8]) -> bool {
        match self.host().sending() {
            Some(sent) => sent.as_slice() == bytes,
            None => bytes.is_empty(),
        }
    }

    fn ended(&self) -> Option<JobEnd> {
        self.last_end()
    }

    fn sees_restart(&self) -> bool {
        self.host().restart_seen()
    }

    fn says(&self, cell: Cell) -> Option<Standing> {
        match cell {
            Cell::Out(output, _) if output >= self.device().count() => None,
            _ => Some(self.host().standing(cell)),
        }
    }

    fn may_hold(&self, cell: Cell, words: &[u16]) -> bool {
        match cell {
            Cell::Out(output, _) if output >= self.device().count() => false,
            _ => match self.host().possible(cell) {
                Possible::Any => words.is_empty(),
                Possible::Words(listed) => !words.is_empty() && listed.as_slice() == words,
            },
        }
    }
}
