//! The frame that is being sent.

ghost use Rattle.std.specs.Prelude.{◌≡◌};
ghost use Rattle.pm_table.specs.Address.{IsAddress};
ghost use Rattle.pm_host.specs.Messages.{IsFrameOf};
ghost use Rattle.pm_host.specs.Sound.{AcceptsWrittenWord};
ghost use Rattle.pm_host.specs.Summary.{stage_message};

use crate::stage::Stage;
use pm_frame::{Frame, Message, write_part};

/// What is being sent: if the open job stands, its message, and the frame that carries it.
#[derive(Debug, Drop)]
pub(crate) struct Sending {
    pub(crate) stage: Stage,
    pub(crate) message: Message,
    pub(crate) frame: Frame,
}

impl Sending {
    /// What the stage sends to a device.
    pub(crate) fn of(stage: Stage, address: u8) -> Sending
        requires address { IsAddress address }
        requires word { AcceptsWrittenWord stage }
        ensures stage { result.stage ≡ stage }
        ensures message { result.message ≡ stage_message stage }
        ensures frame { IsFrameOf address result.message result.frame.items }
    {
        let message = stage.message();
        Sending {
            stage,
            frame: write_part(address, &message),
            message,
        }
    }
}
