//! A host beside a part as it is, whatever was there before, while anybody reads the part.

ghost use Rattle.std.specs.Prelude.{◌≡◌, ◌≢◌, ◌⊎◌, ◌<◌, ◌≤◌, ◌+◌, ◌∷◌, ◌++◌, ℕ, Bool, [], List, None, Some, false, true, IfOk, IfSome, OnOk, length, slice_get, slice_index_or};
ghost use Rattle.std.specs.List.{list_any};
ghost use Rattle.pm_num.specs.AnyFormat.{shape_of};
ghost use Rattle.pm_table.specs.Cell.{IsCell, cell_code};
ghost use Rattle.pm_table.specs.Protection.{is_allowed};
ghost use Rattle.pm_table.specs.declared.cell.Cell.{Cell};
ghost use Rattle.pm_table.specs.declared.cell.Cell.TheVariants.{Protect};
ghost use Rattle.pm_model.specs.Settings.{word_at};
ghost use Rattle.pm_device.specs.Held.{shape_for};
ghost use Rattle.pm_device.specs.declared.converter.Ending.TheVariants.{Restart};
ghost use Rattle.pm_host.specs.Frames.{frames_left};
ghost use Rattle.pm_host.specs.Marks.{marks};
ghost use Rattle.pm_host.specs.Possible.{is_possible};
ghost use Rattle.pm_host.specs.Messages.{cell_write};
ghost use Rattle.pm_host.specs.Summary.{standing_at};
ghost use Rattle.pm_host.specs.Transcript.{Order};
ghost use Rattle.pm_host.specs.declared.knowledge.Standing.TheVariants.{Confirmed};
ghost use Rattle.pm_host.specs.declared.job.JobEnd.TheVariants.{Differs};
ghost use Rattle.pm_host.specs.declared.stage.Stage.{Stage as AnyStage};
ghost use Rattle.pm_limits.specs.Band.{InBand, band_at};
ghost use Rattle.pm_limits.specs.Bounds.{IsWithin};
ghost use Rattle.pm_limits.specs.Part.{all_registers};
ghost use Rattle.pm_limits.specs.declared.band.Band.{Band as Interval};
ghost use Rattle.pm_limits.specs.declared.output_limits.OutputLimits.TheVariants.{Between, Unlimited};
ghost use Rattle.pm_log.specs.declared.claim.Claim.TheVariants.{Holds};
ghost use Rattle.pm_log_laws.specs.CheckedBeside.{TellsLogBeside};
ghost use Rattle.pm_rail.specs.Survey.{is_surveyed};
ghost use Rattle.pm_rail.specs.declared.survey.Survey.{Survey};
ghost use Rattle.pm_world.specs.Bands.{AreShort};
ghost use Rattle.pm_world.specs.GoodTurns.{Took};
ghost use Rattle.pm_world.specs.Honest.{is_whole};
ghost use Rattle.pm_world.specs.Legal.{frame_of};
ghost use Rattle.pm_world.specs.Setup.{setup_of};
ghost use Rattle.pm_world.specs.declared.event.Arrival.{Arrival};
ghost use Rattle.pm_world.specs.State.{asked};
ghost use Rattle.pm_world.specs.Uncertainty.{AreOpen, ArePossible, Choice, since_restart};
ghost use Rattle.pm_world.specs.declared.event.Event.{Event};
ghost use Rattle.pm_world.specs.declared.event.Event.TheVariants.{Check};
ghost use Rattle.pm_part_laws.specs.Alike.{LivesAlike};
ghost use Rattle.pm_part_laws.specs.Answers.{restarted_since_beside, restarted_since_host_beside};
ghost use Rattle.pm_part_laws.specs.Happenings.{Happening, Happens, Hears, begins_another, beside, restarts, entries_beside};
ghost use Rattle.pm_part_laws.specs.HonestOrders.{events_among, honest_frames};
ghost use Rattle.pm_part_laws.specs.Limits.{AreGuardedBeside, BandStandsBeside, BeginsWithin};
ghost use Rattle.pm_part_laws.specs.Moves.{MovesBy, words_at_beside};
ghost use Rattle.pm_part_laws.specs.OpenJobs.{ComeWholeBeside, ComesWholeBeside, good_end_at, turn_at};
ghost use Rattle.pm_part_laws.specs.OwnWords.{CommandsOwn, commands_beside};
ghost use Rattle.pm_part_laws.specs.Surveys.{AreRead, IsOneValue};
ghost use Rattle.pm_law_tests.specs.Beside.{GuardedLife, IsLeft, LedTo, PartLife, ReachedIsHeldByPart, both_in};

use pm_course_laws::frame_courses_hold_beside;
use pm_device::{Config, Converter, Ending, Heard};
use pm_host::{Host, HostFault, Job, Possible, Standing};
use pm_limits::{Band, PartRegisters, band_of, whole_parts_miss_nothing};
use pm_log::{Act, Claim, check};
use pm_log_laws::accepted_claims_hold_beside;
use pm_num::{AnyFormat, Frac};
use pm_part_laws::{
    bands_beside, confirmed_beside, differing_beside, exact_beside, formats_beside,
    honest_orders_beside, limits_beside, open_jobs_end_beside, own_words_beside, parts_stay_parts,
    possible_beside, reads_keep_settings, same_settings_live_alike, seen_beside,
    settings_move_beside, surveys_beside,
};
use pm_table::Cell as Place;
use pm_world::{SetupFault, plans_hold_in_lives, spell, starts_are_parts};

/// A host that begins beside a converter as it was made.
pub fn a_host_beside_a_part(c: Config, passes: u8) -> Result<(Converter, Host), SetupFault>
    requires places { length c.starts ≡ 8 }
    ensures { IfOk result (λ both. LedTo (record { held = both.0; passes = passes; happened = [] }) both.1 both.0) }
{
    // law: what a life asks of its configuration, and that a start is one of a part
    spell(c);
    starts_are_parts();
    let device = match Converter::new(c) {
        Ok(device) => device,
        Err(fault) => return Err(SetupFault::Device(fault)),
    };
    match Host::new(c.addr, c.count, passes) {
        Ok(host) => Ok((device, host)),
        Err(fault) => Err(SetupFault::Host(fault)),
    }
}

/// Another host begins beside the part, whatever the first one did.
pub fn another_host(
    host: &Host,
    device: &Converter,
    address: u8,
    outputs: u8,
    passes: u8,
) -> Result<Host, HostFault>
    ghost life: { PartLife }
    requires led { LedTo life host.now device.now }
    requires address { address ≡ life.held.config.addr }
    requires outputs { outputs ≡ life.held.config.count }
    ensures { IfOk result (λ other. LedTo (record { held = device.now; passes = passes; happened = [] }) other device.now) }
{
    parts_stay_parts();
    Host::new(address, outputs, passes)
}

/// Anybody asks the part for anything: what it is asked is one of the things that may happen beside it.
pub fn a_read_between(host: &Host, device: &mut Converter, bytes: &[u8]) -> Heard
    ghost life: { PartLife }
    requires led { LedTo life host.now device.old }
    ensures { LedTo (record life { happened = Hears bytes.now Restart ∷ life.happened }) host.now device.new }
{
    reads_keep_settings();
    device.hear(bytes, Ending::Restart)
}

/// A check that the host accepts is one of the things that may happen beside the part.
pub fn a_check_between(host: &mut Host, device: &Converter, cell: Place) -> Result<(), HostFault>
    ghost life: { PartLife }
    requires led { LedTo life host.old device.now }
    ensures { OnOk result (LedTo (record life { happened = Happens (Check cell) ∷ life.happened }) host.new device.now) }
{
    host.begin(Job::Check(cell))
}

/// Some life of a world is like what happened.
pub fn a_life_that_is_like(host: &Host, device: &Converter)
    ghost life: { PartLife }
    requires led { LedTo life host.now device.now }
    ensures { LivesAlike life.held life.passes }
{
    same_settings_live_alike();
}

/// The word that a host calls confirmed is the one that the part holds, if it didn't restart since the host's last good answer for it.
pub fn a_confirmed_word(host: &Host, device: &Converter, cell: Place) -> Option<u16>
    ghost life: { PartLife }
    requires led { LedTo life host.now device.now }
    requires there { IsCell life.held.config.count cell }
    ensures { restarted_since_beside life.held life.passes cell life.happened ≡ false →
        IfSome result (λ word. word_at device.now.words cell ≡ word) }
{
    confirmed_beside();
    match host.standing(cell) {
        Standing::Confirmed(word) => Some(word),
        Standing::Unknown => None,
    }
}

/// The word that a part holds is one that the host calls possible, if the part didn't restart since the host's last good answer for it.
pub fn a_possible_word(host: &Host, device: &Converter, cell: Place) -> Possible
    ghost life: { PartLife }
    requires led { LedTo life host.now device.now }
    requires there { IsCell life.held.config.count cell }
    ensures { restarted_since_beside life.held life.passes cell life.happened ≡ false →
        is_possible (word_at device.now.words cell) result ≡ true }
{
    possible_beside();
    host.possible(cell)
}

/// A restart of the part that the host saw did happen since the host started.
pub fn a_seen_restart(host: &Host, device: &Converter) -> bool
    ghost life: { PartLife }
    requires led { LedTo life host.now device.now }
    ensures { result ≡ true → restarted_since_host_beside life.happened ≡ true }
{
    seen_beside();
    host.restart_seen()
}

/// Whichever words are possible, some life leaves all of them and tells its host just what this one was told.
pub fn a_choice_of_possible_words(host: &Host, device: &Converter)
    ghost life: { PartLife }
    requires led { LedTo life host.now device.now }
    ensures { (chosen : Choice) → restarted_since_host_beside life.happened ≡ false →
        AreOpen (marks (setup_of life.held.config life.passes) (since_restart (entries_beside life.held life.passes life.happened))) →
        ArePossible life.held.config host.now chosen → IsLeft life chosen }
{
    exact_beside();
}

/// Each output commands a value of words that the part held or had stored as the host began, or that were ordered since.
pub fn a_voltage_of_its_own(host: &Host, device: &Converter, output: u8) -> Frac
    ghost life: { PartLife }
    requires led { LedTo life host.now device.now }
    requires there { output < life.held.config.count }
    ensures own { CommandsOwn life.held life.passes life.happened output }
    ensures is { result ≡ commands_beside life.held life.passes life.happened output }
{
    own_words_beside();
    device.commanded(output)
}

/// Only the open job or a restart of the part moves a word of it, whatever it hears.
pub fn a_word_that_moves(host: &Host, device: &Converter, cell: Place)
    ghost life: { PartLife }
    requires led { LedTo life host.now device.now }
    requires there { IsCell life.held.config.count cell }
    ensures { (one : Happening) (before : List Happening) → life.happened ≡ one ∷ before →
        (word_at device.now.words cell ≡ word_at (words_at_beside life.held life.passes before) cell)
        ⊎ MovesBy life.held life.passes before cell (word_at device.now.words cell) one }
{
    settings_move_beside();
}

/// An order that ended as Differs never took, if the part didn't restart since.
pub fn an_order_that_differs_beside(host: &Host, device: &Converter, cell: Place, word: u16)
    ghost life: { PartLife }
    requires led { LedTo life host.now device.now }
    ensures { (later before : List Happening) (order : Event) (read : ℕ) → life.happened ≡ later ++ Happens order ∷ before →
        asked (beside life.held life.passes before) order ≡ Some (Order cell word) →
        list_any begins_another later ≡ false → list_any restarts later ≡ false →
        (both_in life).end ≡ Some (Differs read) → (read ≢ word) × (word_at device.now.words cell ≡ read) }
{
    differing_beside();
}

/// An order whose frames came whole, whatever was read between them, ended confirmed, and the part holds its word.
pub fn an_order_that_goes_through(host: &Host, device: &Converter, cell: Place, word: u16)
    ghost life: { PartLife }
    requires led { LedTo life host.now device.now }
    ensures { (frames before : List Happening) (order : Event) (arrivals : List Arrival) (acked : Bool) →
        life.happened ≡ frames ++ Happens order ∷ before → events_among frames ≡ honest_frames arrivals acked →
        asked (beside life.held life.passes before) order ≡ Some (Order cell word) →
        is_allowed (word_at (words_at_beside life.held life.passes before) Protect) (cell_code cell) ≡ true →
        list_any (is_whole (frame_of life.held.config.addr (cell_write cell word))) arrivals ≡ true →
        (standing_at host.now cell ≡ Confirmed word) × (word_at device.now.words cell ≡ word) }
{
    honest_orders_beside();
}

/// The open job, whichever it is, ends or goes on as its stage says, if the last that happened is a frame of it that came whole (`turn`).
/// Once all its frames come whole they are no more than it had left (`few`), and where it ended by them it ended so (`ends`).
pub fn a_job_that_ends(host: &Host, device: &Converter)
    ghost life: { PartLife }
    requires led { LedTo life host.now device.now }
    ensures turn { (before : List Happening) (stage : AnyStage) (acked : Bool) →
        (beside life.held life.passes before).host.stage ≡ Some stage →
        ComesWholeBeside life.held life.passes acked stage before life.happened →
        Took host.now.stage (both_in life).end (turn_at life.held life.passes before acked stage) }
    ensures few { (before : List Happening) (frames : List Bool) → ComeWholeBeside life.held life.passes frames before life.happened →
        length frames + frames_left host.now ≤ frames_left (beside life.held life.passes before).host }
    ensures ends { (before : List Happening) (frames : List Bool) (stage : AnyStage) →
        (beside life.held life.passes before).host.stage ≡ Some stage →
        ComeWholeBeside life.held life.passes frames before life.happened → host.now.stage ≡ None →
        (both_in life).end ≡ Some (good_end_at life.held life.passes before stage) }
{
    open_jobs_end_beside();
}

/// A format that a host learned is the part's.
pub fn a_format_of_a_part(host: &Host, device: &Converter, output: u8) -> Option<AnyFormat>
    ghost life: { PartLife }
    requires led { LedTo life host.now device.now }
    requires there { output < life.held.config.count }
    ensures { IfSome result (λ format. shape_of format ≡ shape_for life.held.config output) }
{
    formats_beside();
    host.format(output)
}

/// An output commands a voltage within limits that allow what the part held and had stored, if each job went through a guard with them.
pub fn a_voltage_within_limits(host: &Host, device: &Converter, output: u8) -> Frac
    ghost of: { GuardedLife }
    requires led { LedTo of.life host.now device.now }
    requires there { output < of.life.held.config.count }
    requires between { slice_index_or of.limits output Unlimited ≡ Between of.bounds }
    requires guarded { AreGuardedBeside of.life.held of.life.passes of.registers of.limits of.life.happened }
    requires begins { BeginsWithin of.life.held output of.bounds }
    ensures { IsWithin of.bounds result }
{
    limits_beside();
    device.commanded(output)
}

/// What an output of a part with every register commands lies in its band.
pub fn a_band_of_a_part(host: &Host, device: &Converter, output: u8) -> Option<Band>
    ghost life: { PartLife }
    requires led { LedTo life host.now device.now }
    requires there { output < life.held.config.count }
    requires short { AreShort device.now.words output }
    ensures { BandStandsBeside life.held life.passes life.happened output →
        IfSome result (λ band. InBand band (commands_beside life.held life.passes life.happened output)) }
{
    bands_beside();
    plans_hold_in_lives(); // law: a part with every register lacks none
    band_of(host, PartRegisters::all(), output)
}

/// After a survey that ended by its own rule, an output of a part with every register commands the one value of its band.
pub fn a_surveyed_part(host: &Host, device: &Converter)
    ghost life: { PartLife }
    requires led { LedTo life host.now device.now }
    ensures { (v : Survey) (later before : List Happening) (band : Interval) → life.happened ≡ later ++ before →
        v.output < life.held.config.count → AreRead life.held life.passes v later before → list_any restarts later ≡ false →
        is_surveyed all_registers v host.now ≡ true → band_at all_registers host.now v.output ≡ Some band →
        IsOneValue band life.held life.passes life.happened v.output }
{
    surveys_beside();
    whole_parts_miss_nothing();
    plans_hold_in_lives(); // law: a part with every register lacks none
}

/// A course that says `Reached` left each wanted word in a part with every register, whatever anybody read of it meanwhile.
pub fn a_course_that_is_reached(host: &Host, device: &Converter)
    ghost life: { PartLife }
    requires led { LedTo life host.now device.now }
    ensures { ReachedIsHeldByPart life host.now device.now }
{
    frame_courses_hold_beside();
    plans_hold_in_lives(); // law: a part with every register lacks none
}

/// The part holds each word that an accepted log claims, if the log is what the host heard, and the part didn't restart since.
pub fn a_claim_beside_a_part(
    host: &Host,
    device: &Converter,
    c: Config,
    passes: u8,
    acts: &[Act<'_>],
    claims: &[Claim],
) -> Option<()>
    ghost life: { PartLife }
    requires led { LedTo life host.now device.now }
    requires config { life.held.config ≡ c }
    requires passes { life.passes ≡ passes }
    requires tells { TellsLogBeside life.held life.passes life.happened acts.now }
    ensures { IfSome result (λ accepted. (at : ℕ) (cell : Cell) (word : ℕ) → slice_get claims.now at ≡ Some (Holds cell word) →
        restarted_since_beside life.held life.passes cell life.happened ≡ false → word_at device.now.words cell ≡ word) }
{
    accepted_claims_hold_beside();
    match check(c.addr, c.count, passes, acts, claims) {
        Ok(()) => Some(()),
        Err(_) => None,
    }
}
