//! One host and one converter, and what happens between them.

ghost use Rattle.std.specs.Prelude.{◌≡◌, ◌<◌, ◌≤◌, ◌+◌, ℕ, length, None, IfOk, OnOk};
ghost use Rattle.std.specs.Result.{result_err};
ghost use Rattle.pm_device.specs.Start.{IsSound};
ghost use Rattle.pm_host.specs.Refusals.{IsSetup};
ghost use Rattle.pm_world.specs.Bytes.{CarriesBytes, CarryBytes, StartsShort};
ghost use Rattle.pm_world.specs.Confirmed.{ConfirmedIsHeld};
ghost use Rattle.pm_world.specs.Ended.{DiffersNeverTook};
ghost use Rattle.pm_world.specs.GoodBus.{GoodFrames};
ghost use Rattle.pm_world.specs.Honest.{AreFewFrames, FormatsAgree, IsSpelled, MicrosAreNearest, OrdersGoThrough};
ghost use Rattle.pm_world.specs.Possible.{PossibleIsHeld, SeenIsTrue};
ghost use Rattle.pm_world.specs.Lived.{IsLived};
ghost use Rattle.pm_world.specs.Setup.{setup_of, world_start, world_fault};
ghost use Rattle.pm_world.specs.Life.{AreTaken, AreTakenFrom, StopsAt, StopsFrom, after_all, found_by, life, now, taken_events};
ghost use Rattle.pm_world.specs.Job.{asked_by};
ghost use Rattle.pm_world.specs.Limited.{StaysLimited};
ghost use Rattle.pm_world.specs.Moves.{MovesByTheOpenJob};
ghost use Rattle.pm_world.specs.State.{Steps, Acts};
ghost use Rattle.pm_world.specs.Uncertainty.{AreOfBytes, since_restart};
ghost use Rattle.pm_table.specs.declared.cell.Cell.{Cell as AnyCell};
ghost use Rattle.pm_table.specs.Cell.{IsCell};
ghost use Rattle.pm_model.specs.Commanded.{commanded};
ghost use Rattle.pm_model.specs.Settings.{word_at};
ghost use Rattle.pm_device.specs.Held.{value_for};
ghost use Rattle.pm_world.specs.Retelling.{IsOrderRun, IsOwnWord, CommandsOwn};

use crate::cause::{Cause, Stop};
use crate::event::Event;
use crate::laws::{
    answers_come_in_bytes, confirmed_settings_are_held, differing_orders_never_took,
    events_are_lived, frames_are_few, good_frames_end_jobs, honest_orders_go_through,
    learned_formats_are_true, lives_are_followed, lives_are_orders, lives_stay_limited,
    possible_words_are_held, settings_move_by_the_open_job, spell,
};
use crate::watch::{Unwatched, Watch};
use pm_device::{Config, Converter};
use pm_host::{Host, JobEnd, transcripts_are_followed};
use pm_setup::SetupFault;
use std::marker::Model;

mod shares;

/// How many events a world takes.
const EVENT_LIMIT: u64 = 1 << 48;

/// One host and one converter, and what happens between them.
#[derive(Debug, Drop)]
pub struct World {
    device: Converter,
    host: Host,
    end: Option<JobEnd>,
    taken: u64,
}

impl Model for World {
    ghost use Rattle.pm_world.specs.State.{State};

    ghost Value = { State };

    ghost use Rattle.pm_world.specs.Setup.{IsMatched};

    ghost view = { λ w. record {
      device = w.device;
      host = w.host;
      end = w.end;
      taken = w.taken;
    } };

    ghost invariant = { λ w. IsMatched w.host.setup w.device.config w.taken };
}

impl World {
    /// A world whose two ends start: a converter of this configuration, and a host for its address
    /// and its outputs, with this number of passes. The converter's fault comes before the host's.
    #[tactic(auto, unfolding(crate::specs::Setup::world_start, crate::specs::Setup::world_fault))]
    pub fn new(c: Config, passes: u8) -> Result<World, SetupFault>
        ensures made { IfOk result (λ world. world ≡ world_start c passes) }
        ensures taken { IfOk result (λ world. world.taken ≡ 0) }
        ensures config { IfOk result (λ world. world.device.config ≡ c) }
        ensures setup { IfOk result (λ world. world.host.setup ≡ setup_of c passes) }
        ensures sound { OnOk result (IsSound c × IsSetup (setup_of c passes) × IsSpelled c) }
        ensures short { OnOk result (StartsShort c) }
        ensures fault { result_err result ≡ world_fault c passes }
    {
        spell(c); // law: a configuration's numbers fit into bytes
        let device = Converter::new(c)?;
        let host = Host::new(c.addr, c.count, passes)?;
        Ok(World {
            device,
            host,
            end: None,
            taken: 0,
        })
    }

    /// Makes a new world, and lets the events happen one after another, up to the first that isn't taken. It
    /// gives the world after them, and where it stopped and why, or `None` if every event was taken. `Err` is
    /// why no world is made.
    ///
    /// The *taken events* are those before the stop, or all if there is none. Whatever was lost, cut,
    /// damaged, repeated or falsely acknowledged, and whichever end started again:
    ///
    /// - `orders`: the converter's words, and those in its store, are those of the run of the order machine that
    ///   retells the taken events. Exactly the orders, stores and restores are accepted in it, each in its place, an
    ///   order with its word. Each takes exactly at those deliveries between its acceptance and its job's end by which
    ///   its frame is heard whole while WRITE_PROTECT allows its code.
    /// - `own`, `stored`: each cell has its start word, or that of an order for that very cell, also in the store.
    /// - `moves`: a cell gets another word only by a restart of the converter, or by a delivery that lets an order of
    ///   this word for this very cell, or a restore, take. The store changes only by a delivery that lets an open store
    ///   take, so it has the settings of one earlier moment.
    /// - `commanded`: each output commands the value of one of its own words, cut to its own VOUT_MIN and VOUT_MAX.
    /// - `confirmed`: a word that the host calls confirmed is held, unless the converter restarted since it was read.
    /// - `possible`: the converter's word is among those that the host lists as possible for a cell, unless
    ///   the converter restarted since the host's last good answer for the cell.
    /// - `seen`: a good answer that the host didn't think possible comes only if the converter restarted since the
    ///   one before it for the same cell. A restart that the host saw happened since the host started.
    /// - `limited`: an output commands, at each moment of the taken events, a voltage within limits that allow all of
    ///   its own words, and no more than the most of all words of its VOUT_MAX. Words that a guard let be ordered lie
    ///   within its limits.
    /// - `few`: no job sends more than twice as many frames as it has passes.
    /// - `through`: an undisturbed order that WRITE_PROTECT allows ends done, confirmed and held.
    /// - `good`: what a frame that nothing disturbs makes of an open job, at any moment, whatever went before. An order
    ///   that WRITE_PROTECT allows is done by the write and the read of one pass, whichever it is, and a read shows a word
    ///   that wasn't possible.
    /// - `formats`, `nearest`: a format that the host learned is the converter's, and an order in
    ///   microvolts is that of the nearest word in it. A learn that learned leaves a format until the host restarts,
    ///   and no other job changes one.
    /// - `never`: an order that differs never took, if the converter didn't restart since it was accepted.
    /// - `taken`, `room`: how many events the world took, no more than there are.
    /// - `now`, `all`, `lived`, `stop`: the world is what its definition says of the taken events, each of them was
    ///   taken, so that a world lived through them, and the first other one has a cause, which is the stop's.
    /// - `config`, `setup`: the converter has this configuration, the host its address, its outputs and these passes.
    /// - `came`: what came back since the host's last restart were bytes, as `words` of
    ///   [`possible_words_are_exact`](crate::possible_words_are_exact) asks. By
    ///   [`answers_come_in_bytes`](crate::answers_come_in_bytes) this follows from `bytes`, that what the taken events
    ///   carry are bytes, and words of two, and from `short`, that the start words have two.
    /// - `sound`: what the laws ask, by which all this is had of further calls of [`World::step`] too.
    pub fn run(c: Config, passes: u8, events: &[Event]) -> Result<(World, Option<Stop>), SetupFault>
        ensures fault { result_err result ≡ world_fault c passes }
        ensures config { IfOk result (λ run. run.0.device.config ≡ c) }
        ensures setup { IfOk result (λ run. run.0.host.setup ≡ setup_of c passes) }
        ensures now { IfOk result (λ run.
            run.0 ≡ now c passes (taken_events events.now run.1)) }
        ensures all { IfOk result (λ run. AreTaken c passes (taken_events events.now run.1)) }
        ensures lived { IfOk result (λ run. IsLived c passes (taken_events events.now run.1)) }
        ensures orders { IfOk result (λ run.
            IsOrderRun c passes (taken_events events.now run.1)
            run.0.device.words run.0.device.store) }
        ensures own { IfOk result (λ run. (cell : AnyCell) → IsCell c.count cell →
            IsOwnWord c passes (taken_events events.now run.1) cell
            (word_at run.0.device.words cell)) }
        ensures stored { IfOk result (λ run. (cell : AnyCell) → IsCell c.count cell →
            IsOwnWord c passes (taken_events events.now run.1) cell
            (word_at run.0.device.store cell)) }
        ensures commanded { IfOk result (λ run. (output : ℕ) → output < c.count →
            CommandsOwn c passes (taken_events events.now run.1) output
            (commanded (value_for run.0.device.config output) run.0.device.words output)) }
        ensures moves { IfOk result (λ run.
            MovesByTheOpenJob c passes (taken_events events.now run.1)) }
        ensures limited { IfOk result (λ run.
            StaysLimited c passes (taken_events events.now run.1)) }
        ensures stop { IfOk result (λ run. StopsAt c passes events.now run.1) }
        ensures few { IfOk result (λ run. AreFewFrames c passes (taken_events events.now run.1)) }
        ensures through { IfOk result (λ run.
            OrdersGoThrough c passes (taken_events events.now run.1)) }
        ensures good { IfOk result (λ run. GoodFrames c passes (taken_events events.now run.1)) }
        ensures formats { IfOk result (λ run.
            FormatsAgree c passes (taken_events events.now run.1)) }
        ensures nearest { IfOk result (λ run.
            MicrosAreNearest c passes (taken_events events.now run.1)) }
        ensures confirmed { IfOk result (λ run.
            ConfirmedIsHeld c passes (taken_events events.now run.1) run.0) }
        ensures possible { IfOk result (λ run.
            PossibleIsHeld c passes (taken_events events.now run.1) run.0) }
        ensures seen { IfOk result (λ run.
            SeenIsTrue c passes (taken_events events.now run.1) run.0) }
        ensures never { IfOk result (λ run.
            DiffersNeverTook c passes (taken_events events.now run.1)) }
        ensures taken { IfOk result (λ run.
            run.0.taken ≡ length (taken_events events.now run.1)) }
        ensures room { IfOk result (λ run.
            (now c passes (taken_events events.now run.1)).taken ≤ length events.now) }
        ensures sound { OnOk result (IsSound c × IsSetup (setup_of c passes) × IsSpelled c) }
        ensures short { OnOk result (StartsShort c) }
        ensures bytes { IfOk result (λ run. CarryBytes (taken_events events.now run.1)) }
        ensures came { IfOk result (λ run.
            AreOfBytes (since_restart (life c passes (taken_events events.now run.1)).entries)) }
    {
        events_are_lived();
        lives_are_orders();
        settings_move_by_the_open_job();
        lives_stay_limited();
        frames_are_few();
        honest_orders_go_through();
        good_frames_end_jobs();
        learned_formats_are_true();
        confirmed_settings_are_held();
        possible_words_are_held();
        differing_orders_never_took();
        answers_come_in_bytes();
        World::lived(c, passes, events)
    }

    // A new world, and its life up to the first event that isn't taken.
    fn lived(c: Config, passes: u8, events: &[Event]) -> Result<(World, Option<Stop>), SetupFault>
        ensures fault { result_err result ≡ world_fault c passes }
        ensures config { IfOk result (λ run. run.0.device.config ≡ c) }
        ensures setup { IfOk result (λ run. run.0.host.setup ≡ setup_of c passes) }
        ensures sound { OnOk result (IsSound c × IsSetup (setup_of c passes) × IsSpelled c) }
        ensures short { OnOk result (StartsShort c) }
        ensures now { IfOk result (λ run.
            run.0 ≡ now c passes (taken_events events.now run.1)) }
        ensures all { IfOk result (λ run. AreTaken c passes (taken_events events.now run.1)) }
        ensures bytes { IfOk result (λ run. CarryBytes (taken_events events.now run.1)) }
        ensures stop { IfOk result (λ run. StopsAt c passes events.now run.1) }
        ensures taken { IfOk result (λ run.
            run.0.taken ≡ length (taken_events events.now run.1)) }
        ensures room { IfOk result (λ run.
            (now c passes (taken_events events.now run.1)).taken ≤ length events.now) }
    {
        lives_are_followed();
        let mut world = World::new(c, passes)?;
        let (stop, Unwatched) = world.run_up(events, Unwatched);
        Ok((world, stop))
    }

    /// Lets an event happen. `Err` is the first cause against it, in the order of [`Cause`]; then nothing has changed
    /// (`taken`). An event that is taken counts (`counted`). The host stays that of the same outputs (`kept`), and the
    /// converter that of the same configuration (`config`). What the event carries are bytes, and words of two (`bytes`).
    #[tactic(auto, unfolding(crate::specs::State::cause_of, crate::specs::State::next))]
    pub fn step(&mut self, e: &Event) -> Result<(), Cause>
        ensures taken { Steps self.old e.now result self.new }
        ensures counted { OnOk result (self.new.taken ≡ self.old.taken + 1) }
        ensures kept { self.new.host.setup ≡ self.old.host.setup }
        ensures config { self.new.device.config ≡ self.old.device.config }
        ensures bytes { CarriesBytes e.now }
    {
        e.spell(); // law: an event's numbers fit into bytes, and its words into two
        if self.taken >= EVENT_LIMIT {
            return Err(Cause::Full);
        }
        transcripts_are_followed(); // law: a host's setup stays
        self.act(e)?;
        self.taken += 1;
        Ok(())
    }

    /// The converter, whose outputs are those that the host was made for (`outputs`).
    pub fn device(&self) -> &Converter
        ensures value { result.now ≡ self.now.device }
        ensures outputs { self.now.host.setup.outputs ≡ self.now.device.config.count }
    {
        &self.device
    }

    /// The host, which was made for the converter's outputs (`outputs`).
    pub fn host(&self) -> &Host
        ensures value { result.now ≡ self.now.host }
        ensures outputs { self.now.host.setup.outputs ≡ self.now.device.config.count }
    {
        &self.host
    }

    /// How the last job that was accepted since the host's start ended; `None` if it is open or there is
    /// none.
    pub fn last_end(&self) -> Option<JobEnd>
        ensures { result ≡ self.now.end }
    {
        self.end
    }

    // One event after another, up to the first that isn't taken, and what is found of those that are.
    pub(crate) fn run_up<W: Watch>(&mut self, events: &[Event], watch: W) -> (Option<Stop>, W)
        ensures after { self.new ≡ after_all self.old (taken_events events.now result.0) }
        ensures all { AreTakenFrom self.old (taken_events events.now result.0) }
        ensures bytes { CarryBytes (taken_events events.now result.0) }
        ensures stop { StopsFrom self.old events.now result.0 }
        ensures setup { self.new.host.setup ≡ self.old.host.setup }
        ensures config { self.new.device.config ≡ self.old.device.config }
        ensures found { result.1 ≡ found_by W.follows watch self.old (taken_events events.now result.0) }
    {
        let mut found = watch;
        for (at, event) in events.iter().enumerate() {
            if let Err(cause) = self.step(event) {
                return (Some(Stop { at, cause }), found);
            }
            found = found.follow(event, self);
        }
        (None, found)
    }

    // What an event does, in a world that isn't full.
    fn act(&mut self, e: &Event) -> Result<(), Cause>
        ensures acts { Acts self.old e.now result self.new }
        ensures config { self.new.device.config ≡ self.old.device.config }
    {
        if let Some(job) = e.job() {
            self.host.begin(job)?;
            self.end = None;
            return Ok(());
        }
        self.act_beside(e)
    }

    // What an event does that asks for no job.
    fn act_beside(&mut self, e: &Event) -> Result<(), Cause>
        requires { asked_by e.now ≡ None }
        ensures acts { Acts self.old e.now result self.new }
        ensures config { self.new.device.config ≡ self.old.device.config }
    {
        match e {
            Event::Deliver(arrival) => self.deliver(arrival),
            Event::Finish(acked) => self.finish(*acked),
            Event::Exchange(arrival, back) => self.exchange(arrival, back),
            Event::RestartDevice => {
                self.restart_device();
                Ok(())
            }
            Event::RestartHost => {
                self.restart_host();
                Ok(())
            }
            Event::Reading(output, code, word) => {
                self.read(*output, *code, *word);
                Ok(())
            }
            _ => unreachable!(),
        }
    }
}
