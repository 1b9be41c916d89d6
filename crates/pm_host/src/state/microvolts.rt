//! The word of an order that names a number of microvolts.

ghost use Rattle.std.specs.Prelude.{◌≡◌, ◌<◌, Some, None, IfOk};
ghost use Rattle.std.specs.Result.{result_err};
ghost use Rattle.pm_num.specs.AnyFormat.{voltage_shape};
ghost use Rattle.pm_num.specs.Nearest.{IsNearest};
ghost use Rattle.pm_num.specs.NearestWord.{nearest_word as spec_nearest_word};
ghost use Rattle.pm_num.specs.Ratio.{micros};
ghost use Rattle.pm_table.specs.Cell.{output_of};
ghost use Rattle.pm_host.specs.Image.{held, format_held};
ghost use Rattle.pm_host.specs.Refusals.{range_fault_in, outside_format_fault, voltage_fault};
ghost use Rattle.pm_host.specs.Sound.{IsSound};
ghost use Rattle.pm_host.specs.Summary.{format_at};

use crate::fault::HostFault;
use crate::format_image::FormatImage;
use crate::state::State;
use pm_num::{Frac, NumFault, NumFormat, VoltageFormat, micro, nearest_words_hold};
use pm_table::Cell;

impl State {
    /// The format of the cell's output, if the cell is a voltage that may be ordered now.
    // It isn't inlined: it would weigh on each order of a word.
    #[inline(never)]
    pub(super) fn voltage_format(&self, cell: Cell) -> Result<VoltageFormat, HostFault>
        requires { IsSound (held None self.now) }
        ensures fault { result_err result ≡ voltage_fault (held None self.now) cell }
        ensures format { IfOk result (λ format.
            format_at (held None self.now) (output_of cell) ≡ Some (voltage_shape format)) }
    {
        self.refuse_cell(cell)?;
        match cell {
            Cell::Out(output, register) if register.is_voltage() => {
                self.format(output)
                    .voltage_format()
                    .ok_or(HostFault::FormatUnknown)
            }
            _ => Err(HostFault::BadWord),
        }
    }

    /// The format of an output's voltages, as far as it is known.
    #[tactic(auto, unfolding(crate::specs::Image::formats_held))]
    pub fn format(&self, output: u8) -> FormatImage
        requires { output < 8 }
        ensures { format_held result ≡ format_at (held None self.now) output }
    {
        self.formats[usize::from(output)]
    }
}

/// The word of a format that is nearest to a number of microvolts. N5 if the number is beyond
/// 10^15 in size, N3 and N4 if it lies outside the format's least and greatest value.
pub fn nearest_word<F: NumFormat>(format: &F, x: i64) -> Result<u16, HostFault>
    ensures fault { result_err result ≡ range_fault_in (F.lowest format.now) (F.highest format.now) x }
    ensures nearest { IfOk result (IsNearest (F.value format.now) (F.rank format.now) (micros x)) }
    ensures found { IfOk result
        (λ word. spec_nearest_word (F.value format.now) (F.rank format.now) (micros x) ≡ Some word) }
{
    let micros = match micro(x) {
        Ok(micros) => micros,
        Err(fault) => return Err(HostFault::Num(fault)),
    };
    match word_in(format, micros) {
        Ok(word) => Ok(word),
        Err(fault) => Err(HostFault::Num(fault)),
    }
}

// The word that is nearest to a number, in any format. N3 below the least value, N4 above the greatest.
fn word_in<F: NumFormat>(format: &F, x: Frac) -> Result<u16, NumFault>
    ensures fault { result_err result
        ≡ outside_format_fault (F.lowest format.now) (F.highest format.now) x }
    ensures nearest { IfOk result (IsNearest (F.value format.now) (F.rank format.now) x) }
    ensures found { IfOk result
        (λ word. spec_nearest_word (F.value format.now) (F.rank format.now) x ≡ Some word) }
{
    // law: what the nearest words of a format are
    nearest_words_hold(format);
    match format.nearest(x) {
        Ok(word) => Ok(word),
        Err(fault) => Err(fault),
    }
}
