//! The laws of limits and bands, over the definitions only: each is the contract of a function that does
//! nothing.

ghost use Rattle.pm_limits.specs.Laws.{BandsAreEnds, GuardedOrdersAreWithin, MissingLimitsCutNothing, WholePartsMissNothing};

/// A guard lets a voltage of an output with limits through, as a word or in microvolts, only if it lies within them (`voltage`). It lets
/// none through of an output of which no limits are known (`known`). It lets a byte of OPERATION through that leaves the output on only if
/// the band with that byte lies within (`on`). A byte that turns an output off (`off`), and any order for an output that is said to have no
/// limits whose register the part has (`free`), is refused for the host's reasons only. No order of a register that the part doesn't have
/// is let through (`missing`), and no check of one (`unread`).
pub fn guarded_orders_are_within()
    ensures { GuardedOrdersAreWithin }
{}

/// The ends of a band are met and passed by no possible words: whatever possible words an output's registers
/// hold, it commands a value between the ends (`held`), and with the words of an end it commands that very
/// fraction (`reached`).
pub fn bands_are_ends()
    ensures { BandsAreEnds }
{}

/// Each register of a part that has every one may hold what the host knows of it (`known`), and no order
/// (`ordered`) and no check (`checked`) is of a missing one.
pub fn whole_parts_miss_nothing()
    ensures { WholePartsMissNothing }
{}

/// The words at which a missing VOUT_MIN (`least`) and a missing VOUT_MAX (`greatest`) stand lie below and above every
/// other, or at it: they cut nothing.
pub fn missing_limits_cut_nothing()
    ensures { MissingLimitsCutNothing }
{}
