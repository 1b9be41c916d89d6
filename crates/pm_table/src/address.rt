//! Which bytes are a device's address.

ghost use Rattle.std.specs.Prelude.{IsTrue, ◌↔◌};
ghost use Rattle.pm_table.specs.Address.{IsAddress};

/// Whether this project takes the byte as a device's seven-bit address: 08h to 77h. SMBus reserves
/// 00h to 07h and 78h to 7Fh, and no address is above 7Fh. SMBus gives some inside the range a
/// meaning too, as 0Ch; that these are taken is this project's own choice.
pub fn address_ok(addr: u8) -> bool
    ensures { IsTrue result ↔ IsAddress addr }
{
    (0x08..=0x77).contains(&addr)
}
