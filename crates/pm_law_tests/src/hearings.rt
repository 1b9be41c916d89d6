//! What a converter makes of requests, and of frames for another address.

ghost use Rattle.std.specs.Prelude.{◌≡◌, true};
ghost use Rattle.pm_table.specs.Cell.{IsCell};
ghost use Rattle.pm_table.specs.declared.cell.Cell.{Cell as AnyCell};
ghost use Rattle.pm_model.specs.Settings.{word_at};
ghost use Rattle.pm_device.specs.declared.converter.Heard.TheVariants.{Silent};
ghost use Rattle.pm_device.specs.History.{is_for_other};

use pm_device::{Converter, Ending, Heard, frames_for_others_are_silent, requests_latch_at_most};

/// What a repeated start ends, a read of any code say, leaves each setting as it was, whatever its bytes.
pub fn a_request_keeps_settings(device: &mut Converter, bytes: &[u8]) -> Heard
    ensures { (cell : AnyCell) → IsCell device.old.config.count cell →
        word_at device.new.words cell ≡ word_at device.old.words cell }
{
    // law: a request latches bits of STATUS_CML at most
    requests_latch_at_most();
    device.hear(bytes, Ending::Restart)
}

/// A frame for another address is met with silence, and changes nothing.
pub fn a_frame_for_another(device: &mut Converter, bytes: &[u8], ending: Ending) -> Heard
    requires { is_for_other device.old.config.addr bytes.now ≡ true }
    ensures silent { result ≡ Silent }
    ensures unchanged { device.new ≡ device.old }
{
    // law: frames for others change nothing
    frames_for_others_are_silent();
    device.hear(bytes, ending)
}
