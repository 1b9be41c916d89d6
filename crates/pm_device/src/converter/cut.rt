//! Bit 3 of STATUS_VOUT: which outputs command another value than the selected one, and what is latched
//! of it.

ghost use Rattle.std.specs.Prelude.{◌≡◌, ◌<◌, ◌||◌};
ghost use Rattle.pm_device.specs.Status.{is_output_cut as spec_is_output_cut, cut_at};
ghost use Rattle.pm_device.specs.History.{cleared, each_output, latched};

use crate::converter::Converter;

impl Converter {
    // Whether the output is there, and its selected value is cut.
    #[tactic(auto, unfolding(crate::specs::Status::is_output_cut))]
    fn is_output_cut(&self, output: usize) -> bool
        ensures { result ≡ spec_is_output_cut self.now.config self.now.words output }
    {
        output < usize::from(self.config.count) && self.settings.is_cut(&self.formats, output as u8)
    }

    // The latch of a place. It is set, too, if the output is there and its selected value is cut.
    fn is_latched_or_cut(&self, output: usize) -> bool
        requires { output < 8 }
        ensures { result ≡ (cut_at self.now.cut output
            || spec_is_output_cut self.now.config self.now.words output) }
    {
        self.cut[output] || self.is_output_cut(output)
    }

    /// Latches that an output's selected value is outside its limits, if it is.
    pub(super) fn latch(&mut self, output: u8)
        requires { output < self.old.config.count }
        ensures { self.new ≡ record self.old {
          cut = latched self.old.config self.old.words self.old.cut output;
        } }
    {
        let place = usize::from(output);
        if self.is_output_cut(place) {
            self.cut[place] = true;
        }
    }

    /// Latches for every output that its selected value is outside its limits, if it is.
    pub(super) fn latch_all(&mut self)
        ensures { self.new ≡ record self.old {
          cut = each_output (λ output. cut_at self.old.cut output
              || spec_is_output_cut self.old.config self.old.words output);
        } }
    {
        self.cut = std::array::from_fn(|output| self.is_latched_or_cut(output));
    }

    /// Clears the latch of an output; what is outside its limits now shows at once.
    pub(super) fn unlatch(&mut self, output: u8)
        requires { output < self.old.config.count }
        ensures { self.new ≡ record self.old {
          cut = cleared self.old.config self.old.words self.old.cut output;
        } }
    {
        let place = usize::from(output);
        self.cut[place] = self.is_output_cut(place);
    }

    /// Clears the latch of every output; what is outside its limits now shows at once.
    pub(super) fn unlatch_all(&mut self)
        ensures { self.new ≡ record self.old {
          cut = each_output (spec_is_output_cut self.old.config self.old.words);
        } }
    {
        self.cut = std::array::from_fn(|output| self.is_output_cut(output));
    }
}
