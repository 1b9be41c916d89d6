//! What the laws of packets say: of bits that changed, and of packets that share their error code (PEC).

ghost use Rattle.std.specs.Prelude.{◌≡◌, ◌≢◌, ◌<◌, ◌≤◌, ℕ, List, true, false, length};
ghost use Rattle.std.specs.List.{Contains};
ghost use Rattle.pm_table.specs.Address.{IsAddress};
ghost use Rattle.pm_table.specs.Codes as command;
ghost use Rattle.pm_frame.specs.declared.message.Message.{Message as AnyMessage};
ghost use Rattle.pm_frame.specs.declared.message.Message.TheVariants.{PagePlusRead, ReadCommand};
ghost use Rattle.pm_frame.specs.Damage.{changed_bits};
ghost use Rattle.pm_frame.specs.LateAnswers.{request_code};
ghost use Rattle.pm_frame.specs.Layout.{IsAnswer, fits_layout, is_read_message};
ghost use Rattle.pm_host.specs.Messages.{mode_read};
ghost use Rattle.pm_world.specs.SharedCodes.{read_codes};

use pm_frame::{
    Message, codes_are_shared, few_changes_are_betrayed, late_answers_pass, pec, read_answer,
};
use pm_world::reads_that_share_their_code;

/// The PECs of two different messages differ, if both have one length of at most 15 bytes and differ in three bits at
/// most.
pub fn have_one_code(sent: &[u8], heard: &[u8]) -> bool
    ensures { length sent.now ≡ length heard.now → sent.now ≢ heard.now → length sent.now ≤ 15 →
        changed_bits sent.now heard.now ≤ 3 → result ≡ false }
{
    few_changes_are_betrayed();
    pec(sent) == pec(heard)
}

/// An answer to one request is taken for an answer to another only if both requests have one PEC up to the read
/// address.
pub fn passes_for_another(addr: u8, other: &Message, late: &[u8]) -> bool
    requires address { IsAddress addr }
    requires read { is_read_message other.now ≡ true }
    requires fits { fits_layout other.now ≡ true }
    ensures { (request : AnyMessage) (payload : List ℕ) → IsAnswer addr request payload late.now → result ≡ true →
        request_code addr request ≡ request_code addr other.now }
{
    late_answers_pass();
    read_answer(addr, other, late).is_ok()
}

/// Two plain reads that share their PEC up to the read address are of one code.
pub fn plain_reads_are_told_apart(addr: u8, code: u8, other: u8)
    ensures { request_code addr (ReadCommand code) ≡ request_code addr (ReadCommand other) → code ≡ other }
{
    codes_are_shared();
}

/// A read of an output that shares its PEC with a read of VOUT_MODE is that read.
pub fn a_read_of_vout_mode(addr: u8, page: u8, other: u8)
    requires page { page < 8 }
    requires other { other < 8 }
    ensures { (code : ℕ) → Contains read_codes code →
        request_code addr (mode_read page) ≡ request_code addr (PagePlusRead other code) →
        (page ≡ other) × (code ≡ command.vout_mode) }
{
    reads_that_share_their_code();
}
