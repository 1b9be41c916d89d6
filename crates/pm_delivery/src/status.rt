//! The bits of STATUS_WORD and of the status registers that it points to (PMBus 1.3 Part II, STATUS_WORD to STATUS_TEMPERATURE), by
//! their numbers.

ghost use Rattle.std.specs.Prelude.{◌≡◌, find};
ghost use Rattle.pm_delivery.specs.StatusBits.{has_bit as spec_has_bit};

/// OFF of STATUS_WORD: the output provides no power, whatever the reason.
pub(crate) const OFF: u8 = 6;

/// POWER_GOOD# of STATUS_WORD: power good isn't there.
pub(crate) const POWER_GOOD_NOT: u8 = 11;

/// VOUT of STATUS_WORD, which points to STATUS_VOUT.
pub(crate) const VOUT: u8 = 15;

/// IOUT/POUT of STATUS_WORD, which points to STATUS_IOUT.
pub(crate) const IOUT_POUT: u8 = 14;

/// INPUT of STATUS_WORD, which points to STATUS_INPUT.
pub(crate) const INPUT: u8 = 13;

/// TEMPERATURE of STATUS_WORD, which points to STATUS_TEMPERATURE.
pub(crate) const TEMPERATURE: u8 = 2;

/// VOUT_OV_FAULT of STATUS_WORD.
pub(crate) const VOUT_OV_FAULT: u8 = 5;

/// IOUT_OC_FAULT of STATUS_WORD.
pub(crate) const IOUT_OC_FAULT: u8 = 4;

/// VIN_UV_FAULT of STATUS_WORD.
pub(crate) const VIN_UV_FAULT: u8 = 3;

/// The faults of STATUS_VOUT: VOUT_OV_FAULT, VOUT_UV_FAULT, TON_MAX_FAULT.
pub(crate) static STATUS_VOUT_FAULTS: [u8; 3] = [7, 4, 2];

/// The faults of STATUS_IOUT: IOUT_OC_FAULT, IOUT_OC_LV_FAULT, IOUT_UC_FAULT, the current share fault, POUT_OP_FAULT.
pub(crate) static STATUS_IOUT_FAULTS: [u8; 5] = [7, 6, 4, 3, 1];

/// The faults of STATUS_INPUT: VIN_OV_FAULT, VIN_UV_FAULT, IIN_OC_FAULT.
pub(crate) static STATUS_INPUT_FAULTS: [u8; 3] = [7, 4, 2];

/// The faults of STATUS_TEMPERATURE: OT_FAULT, UT_FAULT.
pub(crate) static STATUS_TEMPERATURE_FAULTS: [u8; 2] = [7, 4];

/// Whether this bit of a word is 1.
pub(crate) fn has_bit(word: u16, place: u8) -> bool
    ensures { result ≡ spec_has_bit word place }
{
    place < 16 && (word >> u16::from(place)) % 2 == 1
}

/// The first of these bits of a word that is 1.
pub(crate) fn first_bit(word: u16, places: &[u8]) -> Option<u8>
    ensures { result ≡ find (spec_has_bit word) places.now }
{
    places.iter().copied().find(|place| has_bit(word, *place))
}
