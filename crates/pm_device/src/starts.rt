//! The settings as they start, by a configuration.

ghost use Rattle.std.specs.Prelude.{◌≡◌, ◌<◌, ℕ, [], slice_index_or};
ghost use Rattle.pm_table.specs.declared.cell.Cell.TheVariants.{Protect};
ghost use Rattle.pm_model.specs.Settings.{word_at};
ghost use Rattle.pm_device.specs.Start.{IsSound, no_start, start_row, start_words};

use crate::config::Config;
use crate::output_start::OutputStart;
use pm_model::{Plain, settings_are_a_map};
use pm_table::Reg;

/// The settings as they start.
pub(crate) fn start_settings(config: &Config) -> Plain
    requires { IsSound config.now }
    ensures count { result.count ≡ config.now.count }
    ensures words { result.words ≡ start_words config.now }
    ensures protection { word_at result.words Protect ≡ config.now.protect }
{
    // No other words give each cell its start word.
    settings_are_a_map();
    Plain::new(config.count, rows(&config.starts), config.protect)
}

// The start words of each output, in the order of its registers.
fn rows(starts: &[OutputStart; 8]) -> [[u16; Reg::COUNT]; 8]
    ensures { (output : ℕ) → output < 8 →
        slice_index_or result output [] ≡ start_row (slice_index_or starts.now output no_start) }
{
    let [a, b, c, d, e, f, g, h] = starts;
    [
        a.words(),
        b.words(),
        c.words(),
        d.words(),
        e.words(),
        f.words(),
        g.words(),
        h.words(),
    ]
}
