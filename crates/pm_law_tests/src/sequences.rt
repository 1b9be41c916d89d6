//! What a list of steps is worth whose rails are looked at.

ghost use Rattle.pm_sequence_laws.specs.Finds.{FindsAreVerdicts};
ghost use Rattle.pm_sequence_laws.specs.Fresh.{OrdersAreFresh};
ghost use Rattle.pm_sequence_laws.specs.Handed.{CallsAreRuns, OrdersGoOnce};
ghost use Rattle.pm_sequence_laws.specs.Judged.{OrdersAreJudged, OrdersAreTold};
ghost use Rattle.pm_sequence_laws.specs.Read.{EarlierAnswersCount, LimitsAreRead};
ghost use Rattle.pm_sequence_laws.specs.Runs.{ReachedSequencesDeliver};
ghost use Rattle.pm_sequence_laws.specs.Turned.{SequencesTurn};
ghost use Rattle.pm_sequence_laws.specs.Twice.{OrdersStopAtTwo};

use pm_sequence_laws::{
    calls_are_runs, earlier_answers_count, finds_are_verdicts, limits_are_read, orders_are_fresh,
    orders_are_judged, orders_are_told, orders_go_once, orders_stop_at_two,
    reached_sequences_deliver, sequences_turn,
};

/// A caller's own loop begins no order that wasn't judged by fault limits that were asked to the end; nor one that turns on without a fresh survey,
/// nor one that wasn't told, in a list that asks. It sends one that turns on once a job, and two of these a step.
/// What an earlier list heard of STATUS_WORD isn't asked again.
pub fn orders_of_a_sequence()
    ensures judged { OrdersAreJudged }
    ensures read { LimitsAreRead }
    ensures fresh { OrdersAreFresh }
    ensures once { OrdersGoOnce }
    ensures two { OrdersStopAtTwo }
    ensures told { OrdersAreTold }
    ensures earlier { EarlierAnswersCount }
{
    orders_are_judged();
    limits_are_read();
    orders_are_fresh();
    orders_go_once();
    orders_stop_at_two();
    orders_are_told();
    earlier_answers_count();
}

/// A list that ends as reached has each rail that has to deliver do so, by pm_delivery's verdict, whatever calls a caller's own loop makes of it.
pub fn rails_of_a_sequence()
    ensures reached { ReachedSequencesDeliver }
    ensures found { FindsAreVerdicts }
    ensures calls { CallsAreRuns }
{
    calls_are_runs();
    reached_sequences_deliver();
    finds_are_verdicts();
}

/// The laws of the list of steps hold of it beside looks and waits.
pub fn steps_of_a_sequence()
    ensures { SequencesTurn }
{
    sequences_turn();
}
