//! The laws between the layouts, the faults and the PEC, over nothing but definitions: each is the contract
//! of a function that does nothing, or calls a law below. What each says stands in the definitions, under its
//! name.

ghost use Rattle.pm_frame.specs.Laws.{WritesAreExact, RequestsAreExact, AnswersAreExact, DamageIsRefused, BetrayalIsRefused};
ghost use Rattle.pm_frame.specs.LateAnswers.{LateAnswersPass};
ghost use Rattle.pm_frame.specs.SharedCodes.{CodesAreShared};
ghost use Rattle.pm_frame.specs.Laws.{BurstsAreBetrayed, FewChangesAreBetrayed, DamageIsBetrayed};

use pm_table::payloads_are_short;

/// Bytes have no fault as a write exactly if they have the layout of some message that writes, which is the
/// one read by their places. They are then no other message, and no strict prefix of them is a write to the
/// same address.
pub fn writes_are_exact()
    ensures { WritesAreExact }
{
    payloads_are_short();
}

/// Bytes have no fault as a request exactly if they have the layout of some message that reads, which is the
/// one read by their places. They are then no other message, and no strict prefix of them is a request to the
/// same address.
pub fn requests_are_exact()
    ensures { RequestsAreExact }
{}

/// What came back for a read that fits has no fault exactly if it has the layout of an answer with some
/// payload, which stands at its place. It then has no other payload, and no strict prefix of it is an answer
/// to that request.
pub fn answers_are_exact()
    ensures { AnswersAreExact }
{}

/// What is cut short has a fault, and what its last byte betrays has one, by itself or after the bytes of a
/// request. A write without a fault ends in its PEC, and the answer to a request ends in its PEC if it has no
/// fault.
pub fn damage_is_refused()
    ensures { DamageIsRefused }
{}

/// What the PEC betrays is no write, and no answer to the request that was sent.
pub fn betrayal_is_refused()
    ensures { BetrayalIsRefused }
{
    damage_is_refused();
}

/// A change that lies within eight neighbouring bits of a message, its PEC included, is betrayed.
/// The eight bits may be of two bytes; the message may be of any length.
pub fn bursts_are_betrayed()
    ensures { BurstsAreBetrayed }
{}

/// A change of one, two or three bits anywhere in a message of at most 15 bytes, its PEC included, is
/// betrayed. A change of an odd number of bits is betrayed in a message of any length. Two bits that are 127
/// apart, as the first and the last of 16 bytes, are not.
pub fn few_changes_are_betrayed()
    ensures { FewChangesAreBetrayed }
{}

/// The two laws above for a part of a packet that wasn't betrayed as it was sent, whatever stood
/// before it in the packet.
pub fn damage_is_betrayed()
    ensures { DamageIsBetrayed }
{}

/// An answer to one request passes for an answer to another, as one that comes late may, only if the two requests have one
/// PEC up to the read address. What comes back is judged alike for both if their answers have one form too.
pub fn late_answers_pass()
    ensures { LateAnswersPass }
{}

/// Two messages of one length share their PEC exactly if what changed between them has the PEC 0. The law says it of
/// two reads of outputs' registers, of two plain reads, and of two writes of outputs' registers.
pub fn codes_are_shared()
    ensures { CodesAreShared }
{}
