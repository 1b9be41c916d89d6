//! What is due in a step, by what a host knows.

ghost use Rattle.std.specs.Prelude.{◌≡◌, ◌<◌, false};
ghost use Rattle.std.specs.Option.{option_map_or};
ghost use Rattle.pm_host.specs.Image.{held};
ghost use Rattle.pm_stairs.specs.Command.{same_command as spec_same_command};
ghost use Rattle.pm_stairs.specs.Due.{due_byte as spec_due_byte, due_now, due_words as spec_due_words};

use crate::command::same_command;
use crate::step::{WordAct, WordStep, known_in, only_in};
use pm_host::{Stage, State};
use pm_limits::{OutputLimits, PartRegisters};
use pm_rail::{Plan, PlanFault, PlanOrder, next_order_in};
use pm_table::{Cell, Reg};

/// What is due in a step.
#[derive(Clone, Copy, Debug, PartialEq, Eq)]
pub struct Due {
    /// The order that may be given.
    pub order: Option<PlanOrder>,
    /// Whether the step is over.
    pub over: bool,
    /// The cell that has to be known before the step begins, and isn't.
    pub lacks: Option<Cell>,
}

impl WordStep {
    // What is due in it, by the state beside the open job, of a part with these registers, by these limits. The output's number is
    // below 8.
    pub(crate) fn due(
        &self,
        host: &State,
        stage: Option<Stage>,
        part: PartRegisters,
        limits: &OutputLimits,
    ) -> Due
        requires { self.now.output < 8 }
        ensures { result ≡ due_now part limits.now (held stage host.now) self.now }
    {
        match self.act {
            WordAct::Sets(wanted) => {
                let output = self.output;
                due_words(next_order_in(host, stage, part, limits, &Plan { output, wanted }))
            }
            WordAct::Turns(byte) => due_byte(host, stage, self.output, byte),
            WordAct::Nothing => Due {
                order: None,
                over: stage.is_none(),
                lacks: None,
            },
        }
    }
}

// What is due by a plan's answer.
fn due_words(answer: Result<Option<PlanOrder>, PlanFault>) -> Due
    ensures { result ≡ spec_due_words answer }
{
    let (order, over) = match answer {
        Ok(order) => (order, order.is_none()),
        Err(_) => (None, false),
    };
    Due {
        order,
        over,
        lacks: None,
    }
}

// What is due of a byte of OPERATION.
fn due_byte(host: &State, stage: Option<Stage>, output: u8, byte: u16) -> Due
    requires { output < 8 }
    ensures { result ≡ spec_due_byte (held stage host.now) output byte }
{
    let cell = Cell::Out(output, Reg::Operation);
    let register = Reg::Operation;
    let known = known_in(host, cell);
    let idle = stage.is_none();
    let order = PlanOrder {
        register,
        word: byte,
    };
    Due {
        order: if idle { Some(order) } else { None },
        over: idle && is_command(known, byte),
        lacks: if only_in(host, cell).is_none() {
            Some(cell)
        } else {
            None
        },
    }
}

// Whether the word that is known is the command of this byte.
fn is_command(known: Option<u16>, byte: u16) -> bool
    ensures { result ≡ option_map_or (λ word. spec_same_command byte word) known false }
{
    match known {
        Some(word) => same_command(byte, word),
        None => false,
    }
}
