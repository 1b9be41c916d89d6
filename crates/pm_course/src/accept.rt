//! A word that a part made of another one: it may be taken in the place of what is wanted.

ghost use Rattle.std.specs.Prelude.{◌≡◌, ◌<◌, ◌≤◌, ◌^◌, ℤ, pos, ◌+ℤ◌, ◌-ℤ◌, None, Some, Ok, option_map, unsigned_abs, IfOk};
ghost use Rattle.pm_num.specs.AnyFormat.{voltage_shape, shape_value};
ghost use Rattle.pm_num.specs.Ratio.{is_above as spec_is_above, micros, InBounds};
ghost use Rattle.pm_host.specs.Image.{held};
ghost use Rattle.pm_limits.specs.Bounds.{outside_fault};
ghost use Rattle.pm_limits.specs.Guard.{limits_at};
ghost use Rattle.pm_rail.specs.Registers.{wants_of};
ghost use Rattle.pm_course.specs.Accept.{anew as spec_anew, is_value_near as spec_is_near, is_near_aim, is_wished as spec_is_wished, limits_refuse, near_refusal, not_near as spec_not_near, taken_of as spec_taken_of, taking_word as spec_taking, Accepts, IsAim, IsFormed, IsMeaning, Takes, is_formed as spec_is_formed, meaning_by};
ghost use Rattle.pm_course.specs.Wishes.{refused_at, voltage_of};

use crate::accept_fault::AcceptFault;
use crate::course_end::{CourseEnd, Refusal};
use crate::frame_course::{FrameCourse, sole_at};
use crate::voltages::Voltages;
use crate::wish::Wishes;
use crate::words::word_for;
use pm_host::{Stage, State};
use pm_limits::{Guard, OutputLimits};
use pm_num::{Frac, NumFault, NumFormat, VoltageFormat, micro};
use pm_rail::{PlanFault, Wanted};
use pm_table::{Cell, Reg};
use std::cmp::Ordering;

// Millionths in one.
const MILLION: i128 = 1_000_000;

// The most microvolts of a voltage, in size.
const FAR: u64 = 1_000_000_000_000_000;

impl FrameCourse {
    /// The word that a register holds is wanted in the place of what was: the course begins anew, by the tries that are left. The
    /// register is the one of which an order differed, or else the first of which something is wanted. What was wanted as a voltage
    /// stays one, of whole microvolts that mean just this word.
    ///
    /// The course stays as it was with a refusal. The first of these is answered: H3 if a job is open, P9 if nothing is wanted, P1 if the
    /// format isn't known, and P4 if the word isn't. Next come P9 if its value isn't within the tolerance of what was wanted, in
    /// microvolts, both ends included; L3 or L4 by the limits; and P9 if no whole microvolts mean it.
    pub fn accept(&mut self, guard: &Guard, tolerance: u32) -> Result<(), Refusal>
        requires { self.old.course.survey.output < guard.now.host.setup.outputs }
        ensures { Accepts (limits_at guard.now self.old.course.survey.output) guard.now.host self.old tolerance result self.new }
    {
        let host = guard.host();
        let limits = guard.limits(self.course.survey.output);
        self.accept_in(host.state(), host.stage(), &limits, tolerance)
    }

    /// Takes the held word, or refuses it, by the state beside the open job and by these limits. The output's number is below 8.
    pub fn accept_in(
        &mut self,
        host: &State,
        stage: Option<Stage>,
        limits: &OutputLimits,
        tolerance: u32,
    ) -> Result<(), Refusal>
        requires { self.old.course.survey.output < 8 }
        ensures { Accepts limits.now (held stage host.now) self.old tolerance result self.new }
    {
        match self.accepted(host, stage, limits, tolerance) {
            Ok(anew) => {
                *self = anew;
                Ok(())
            }
            Err(refusal) => Err(refusal),
        }
    }

    // The course whose wanted word is the held one, or why that isn't taken.
    fn accepted(
        &self,
        host: &State,
        stage: Option<Stage>,
        limits: &OutputLimits,
        tolerance: u32,
    ) -> Result<FrameCourse, Refusal>
        requires { self.now.course.survey.output < 8 }
        ensures { Takes limits.now (held stage host.now) self.now tolerance result }
    {
        if stage.is_some() {
            return Err(Refusal::of_plan(PlanFault::Busy));
        }
        let Some(words) = self.course.survey.plan else {
            return Err(nothing_near());
        };
        let Some(register) = self.taken_of(&words) else {
            return Err(nothing_near());
        };
        let Some(format) = host.format(self.course.survey.output).voltage_format() else {
            return Err(Refusal::of_plan(PlanFault::FormatUnknown));
        };
        let cell = Cell::Out(self.course.survey.output, register);
        let Some(word) = sole_at(host, cell) else {
            return Err(Refusal::of_plan(PlanFault::NotKnown(cell)));
        };
        let aim = self.aim(&format, &words, register);
        let value = format.value_of(word);
        let meaning = meaning(&format, register, word);
        match near_fault(limits, &value, register, aim, tolerance) {
            Some(refusal) => Err(refusal),
            None => self.taking(&words, register, word, meaning),
        }
    }

    // The register whose word is taken.
    fn taken_of(&self, words: &Wanted) -> Option<Reg>
        ensures { result ≡ spec_taken_of words.now self.now.voltages self.now.end }
    {
        match self.end {
            Some(CourseEnd::Differs(register, _)) => Some(register),
            _ => self.first_wished(words),
        }
    }

    // The first register of which something is wanted.
    fn first_wished(&self, words: &Wanted) -> Option<Reg>
        ensures { result ≡ spec_taken_of words.now self.now.voltages None }
    {
        if self.is_wished(words, Reg::VoutCommand) {
            Some(Reg::VoutCommand)
        } else if self.is_wished(words, Reg::VoutMax) {
            Some(Reg::VoutMax)
        } else if self.is_wished(words, Reg::MarginHigh) {
            Some(Reg::MarginHigh)
        } else if self.is_wished(words, Reg::MarginLow) {
            Some(Reg::MarginLow)
        } else if self.is_wished(words, Reg::VoutMin) {
            Some(Reg::VoutMin)
        } else {
            None
        }
    }

    // Whether something is wanted of a register.
    fn is_wished(&self, words: &Wanted, register: Reg) -> bool
        ensures { result ≡ spec_is_wished words.now self.now.voltages register }
    {
        words.word(register).is_some() || self.voltages.of(register).is_some()
    }

    // The microvolts that are wanted of a register.
    fn aim(&self, format: &VoltageFormat, words: &Wanted, register: Reg) -> Result<i64, NumFault>
        ensures { IsAim (voltage_shape format.now) (voltage_of self.now.voltages register) (wants_of words.now register) result }
    {
        match (self.voltages.of(register), words.word(register)) {
            (Some(microvolts), _) => Ok(microvolts),
            (None, Some(word)) => format.value_of(word).floor_microvolts(),
            (None, None) => Err(NumFault::TooLarge),
        }
    }

    // The course whose wish is the word of a register, as a word or as a voltage that means it.
    fn taking(
        &self,
        words: &Wanted,
        register: Reg,
        word: u16,
        meaning: Option<i64>,
    ) -> Result<FrameCourse, Refusal>
        ensures { result ≡ spec_taking self.now words.now register word (voltage_of self.now.voltages register) meaning }
    {
        if self.voltages.of(register).is_none() {
            return Ok(self.anew(words.with(register, word), self.voltages));
        }
        match meaning {
            Some(microvolts) => Ok(self.anew(*words, self.voltages.with(register, microvolts))),
            None => Err(not_near(register)),
        }
    }

    // A course that begins anew, by the tries that are left.
    fn anew(&self, words: Wanted, voltages: Voltages) -> FrameCourse
        ensures { result ≡ spec_anew self.now words voltages }
    {
        let survey = self.course.survey;
        let mut course = FrameCourse::new(survey.output, &Wishes::nothing(), survey.left);
        course.course.survey.plan = Some(words);
        course.voltages = voltages;
        course
    }
}

// P9, for a course with no wish.
fn nothing_near() -> Refusal
    ensures { result ≡ record { number = spec_not_near; register = None } }
{
    Refusal {
        number: AcceptFault::NotNear.number(),
        register: None,
    }
}

// P9 of a register.
fn not_near(register: Reg) -> Refusal
    ensures { result ≡ refused_at spec_not_near register }
{
    Refusal {
        number: AcceptFault::NotNear.number(),
        register: Some(register.code()),
    }
}

// Why a word of this value isn't taken.
fn near_fault(
    limits: &OutputLimits,
    value: &Frac,
    register: Reg,
    aim: Result<i64, NumFault>,
    tolerance: u32,
) -> Option<Refusal>
    ensures { result ≡ near_refusal limits.now value.now register aim tolerance }
{
    match aim {
        Ok(microvolts) if FAR < microvolts.unsigned_abs() => Some(not_near(register)),
        Ok(microvolts) if is_near(microvolts, tolerance, value) => {
            outside(limits, value, register)
        }
        _ => Some(not_near(register)),
    }
}

// Whether a value lies within a tolerance.
fn is_near(microvolts: i64, tolerance: u32, value: &Frac) -> bool
    requires { unsigned_abs microvolts ≤ 10 ^ 15 }
    ensures { result ≡ spec_is_near microvolts tolerance value.now }
{
    let below = is_above(&least(microvolts, tolerance), value);
    let above = is_above(value, &most(microvolts, tolerance));
    !below && !above
}

// The least value within a tolerance.
fn least(microvolts: i64, tolerance: u32) -> Frac
    requires { unsigned_abs microvolts ≤ 10 ^ 15 }
    ensures { result ≡ micros (microvolts -ℤ pos tolerance) }
{
    volts(i128::from(microvolts) - i128::from(tolerance))
}

// The most.
fn most(microvolts: i64, tolerance: u32) -> Frac
    requires { unsigned_abs microvolts ≤ 10 ^ 15 }
    ensures { result ≡ micros (microvolts +ℤ pos tolerance) }
{
    volts(i128::from(microvolts) + i128::from(tolerance))
}

// A number of microvolts as a fraction.
fn volts(microvolts: i128) -> Frac
    requires { InBounds microvolts (pos (10 ^ 6)) }
    ensures { result ≡ micros microvolts }
{
    match Frac::new(microvolts, MILLION) {
        Some(value) => value,
        None => unreachable!(),
    }
}

// L3 or L4 of a register, by the limits.
fn outside(limits: &OutputLimits, value: &Frac, register: Reg) -> Option<Refusal>
    ensures { result ≡ limits_refuse limits.now value.now register }
{
    let OutputLimits::Between(limits) = limits else {
        return None;
    };
    if is_above(&limit(limits.least()), value) {
        Some(Refusal::of_plan(PlanFault::BelowLimit(register)))
    } else if is_above(value, &limit(limits.most())) {
        Some(Refusal::of_plan(PlanFault::AboveLimit(register)))
    } else {
        None
    }
}

// A limit as a fraction.
fn limit(microvolts: i64) -> Frac
    requires { unsigned_abs microvolts ≤ 10 ^ 15 }
    ensures { result ≡ micros microvolts }
{
    match micro(microvolts) {
        Ok(value) => value,
        Err(_) => unreachable!(),
    }
}

// Whether the first value is the greater one.
fn is_above(p: &Frac, q: &Frac) -> bool
    ensures { result ≡ spec_is_above p.now q.now }
{
    p.cmp_value(q) == Ordering::Greater
}

// Whole microvolts of which just this word is formed.
fn meaning(format: &VoltageFormat, register: Reg, word: u16) -> Option<i64>
    ensures { IsMeaning (voltage_shape format.now) register word result }
{
    match format.value_of(word).floor_microvolts() {
        Err(_) => None,
        Ok(below) if FAR < below.unsigned_abs() => None,
        Ok(below) => {
            let first = word_for(format, register, below);
            let second = word_for(format, register, below + 1);
            chosen(below, first, second, word)
        }
    }
}

// The microvolts of which a word is formed: these, or one more.
fn chosen(below: i64, first: Result<u16, u8>, second: Result<u16, u8>, word: u16) -> Option<i64>
    requires { unsigned_abs below ≤ 10 ^ 15 }
    ensures { result ≡ meaning_by below first second word }
{
    if is_formed(first, word) {
        Some(below)
    } else if is_formed(second, word) {
        Some(below + 1)
    } else {
        None
    }
}

// Whether a word is formed.
fn is_formed(formed: Result<u16, u8>, word: u16) -> bool
    ensures { result ≡ spec_is_formed formed word }
{
    match formed {
        Ok(found) => found == word,
        Err(_) => false,
    }
}
