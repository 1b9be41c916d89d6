//! A host with its limits in a caller's memory.

ghost use Rattle.std.specs.Prelude.{◌≡◌, ◌<◌, map, slice_index_or, slice_set};
ghost use Rattle.pm_memory.specs.Guard.{job_limits, limits_held, limits_kept, registers_held, unknown_limits};
ghost use Rattle.pm_memory.specs.Memory.{limits_image, registers_image, AreLimits, IsMemory};
ghost use Rattle.pm_host.specs.Memory.{IsImage};
ghost use Rattle.pm_limits.specs.declared.output_limits.OutputLimits.TheVariants.{Unlimited};

use pm_host::{HostImage, Job};
use pm_limits::{Limits, OutputLimits, PartRegisters, ordered_output};

/// How many outputs a device has at most.
pub const OUTPUTS: usize = 8;

/// A host, which registers its part has, and the limits of its outputs, in a caller's memory. It has no padding.
#[repr(C)]
#[derive(Drop)]
pub struct GuardImage {
    /// The host.
    pub host: HostImage,
    /// Which registers the part has.
    pub registers: RegistersImage,
    /// No meaning.
    pub unused: [u16; 3],
    /// The limits of each output.
    pub limits: [LimitsImage; OUTPUTS],
}

/// Which registers of an output a part has, beside OPERATION and VOUT_COMMAND: 0 if it lacks one, and any other number
/// if it has it.
#[repr(C)]
#[derive(Clone, Copy, Debug)]
pub struct RegistersImage {
    /// VOUT_MAX.
    pub vout_max: u8,
    /// VOUT_MARGIN_HIGH.
    pub vout_margin_high: u8,
    /// VOUT_MARGIN_LOW.
    pub vout_margin_low: u8,
    /// VOUT_MIN.
    pub vout_min: u8,
}

impl RegistersImage {
    // The image of these registers.
    fn of(registers: PartRegisters) -> RegistersImage
        ensures held { registers_held result ≡ registers }
        ensures written { result ≡ registers_image registers }
    {
        RegistersImage {
            vout_max: u8::from(registers.vout_max),
            vout_margin_high: u8::from(registers.vout_margin_high),
            vout_margin_low: u8::from(registers.vout_margin_low),
            vout_min: u8::from(registers.vout_min),
        }
    }

    /// What the numbers mean.
    #[inline(always)]
    pub fn registers(&self) -> PartRegisters
        ensures { result ≡ registers_held self.now }
    {
        PartRegisters {
            vout_max: self.vout_max != 0,
            vout_margin_high: self.vout_margin_high != 0,
            vout_margin_low: self.vout_margin_low != 0,
            vout_min: self.vout_min != 0,
        }
    }
}

/// The limits of an output's voltage, in microvolts, as plain numbers. Numbers that are no limits, as a least above
/// the most, say that none are known; 2 and 0 say that it has none.
#[repr(C)]
#[derive(Clone, Copy, Debug)]
pub struct LimitsImage {
    /// The least voltage.
    pub least: i64,
    /// The most.
    pub most: i64,
}

impl LimitsImage {
    // None are known.
    const UNKNOWN: LimitsImage = LimitsImage { least: 1, most: 0 };

    // There are none.
    const UNLIMITED: LimitsImage = LimitsImage { least: 2, most: 0 };

    /// The image of what is said of limits.
    pub fn of(limits: &OutputLimits) -> LimitsImage
        ensures held { limits_held result ≡ limits.now }
        ensures written { result ≡ limits_image limits.now }
    {
        match limits {
            OutputLimits::Unknown => LimitsImage::UNKNOWN,
            OutputLimits::Unlimited => LimitsImage::UNLIMITED,
            OutputLimits::Between(limits) => LimitsImage {
                least: limits.least(),
                most: limits.most(),
            },
        }
    }

    /// What the numbers mean.
    pub fn limits(&self) -> OutputLimits
        ensures { result ≡ limits_held self.now }
    {
        if self.least == LimitsImage::UNLIMITED.least && self.most == LimitsImage::UNLIMITED.most {
            return OutputLimits::Unlimited;
        }
        match Limits::new(self.least, self.most) {
            Ok(limits) => OutputLimits::Between(limits),
            Err(_) => OutputLimits::Unknown,
        }
    }
}

impl GuardImage {
    /// The part has these registers, and no limits are known.
    #[tactic(auto, unfolding(crate::specs::Guard::limits_kept))]
    pub fn free(&mut self, registers: PartRegisters)
        ensures free { limits_kept self.new ≡ unknown_limits }
        ensures registers { registers_held self.new.registers ≡ registers }
        ensures host { self.new.host ≡ self.old.host }
        ensures written { IsImage self.old.host → IsMemory self.new }
    {
        self.registers = RegistersImage::of(registers);
        self.unused = [0; 3];
        self.limits.fill(LimitsImage::UNKNOWN);
    }

    /// What is said of an output's limits; one that isn't there has none.
    #[tactic(auto, unfolding(crate::specs::Guard::limits_kept))]
    pub fn limits(&self, output: u8) -> OutputLimits
        ensures { result ≡ slice_index_or (limits_kept self.now) output Unlimited }
    {
        let place = usize::from(output);
        if place < OUTPUTS {
            self.limits[place].limits()
        } else {
            OutputLimits::Unlimited
        }
    }

    /// The limits by which a job is judged.
    pub fn limits_for(&self, job: Job) -> OutputLimits
        ensures { result ≡ job_limits (limits_kept self.now) job }
    {
        match ordered_output(job) {
            Some(output) => self.limits(output),
            None => OutputLimits::Unlimited,
        }
    }

    /// Keeps what is said of an output's limits.
    #[tactic(auto, unfolding(crate::specs::Guard::limits_kept))]
    pub fn put_limits(&mut self, output: u8, limits: &OutputLimits)
        requires { output < 8 }
        ensures limits { limits_kept self.new ≡ slice_set (limits_kept self.old) output limits.now }
        ensures registers { self.new.registers ≡ self.old.registers }
        ensures host { self.new.host ≡ self.old.host }
        ensures written { IsMemory self.old → IsMemory self.new }
    {
        put(&mut self.limits, output, LimitsImage::of(limits));
    }
}

// Keeps an output's limits.
fn put(all: &mut [LimitsImage; OUTPUTS], output: u8, limits: LimitsImage)
    requires { output < 8 }
    ensures held { map limits_held all.new ≡ slice_set (map limits_held all.old) output (limits_held limits) }
    ensures written { limits ≡ limits_image (limits_held limits) → AreLimits all.old → AreLimits all.new }
{
    all[usize::from(output)] = limits;
}
