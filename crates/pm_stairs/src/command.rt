//! Which bytes of OPERATION are one command.

ghost use Rattle.std.specs.Prelude.{◌≡◌};
ghost use Rattle.pm_stairs.specs.Command.{command_of as spec_command_of, same_command as spec_same_command};

/// Whether a byte that OPERATION holds is the command that is wanted, but for bits that don't count: bit 0, which PMBus 1.3 Part II
/// reserves, and bit 1 unless bits 5:4 are 11, by which a part follows AVSBus.
pub fn same_command(wanted: u16, held: u16) -> bool
    ensures { result ≡ spec_same_command wanted held }
{
    command_of(wanted) == command_of(held)
}

// A byte without the bits that don't count.
#[tactic(auto, unfolding(crate::specs::Command::command_of))]
fn command_of(byte: u16) -> u16
    ensures { result ≡ spec_command_of byte }
{
    if byte / 16 % 4 == 0b11 {
        byte / 2 * 2
    } else {
        byte / 4 * 4
    }
}
