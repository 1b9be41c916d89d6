//! The bits of the status registers.
ghost use Rattle.std.specs.Prelude.{◌≡◌, map};
ghost use Rattle.pm_trace.specs.Statuses.{capability_rows as spec_capability_rows, on_off_rows as spec_on_off_rows, rows_of};

/// A status register of which the bits have names (PMBus 1.3 Part II).
#[derive(Clone, Copy, Debug, PartialEq, Eq)]
pub enum Status {
    /// STATUS_BYTE.
    Byte,
    /// STATUS_WORD.
    Word,
    /// STATUS_VOUT.
    Vout,
    /// STATUS_CML.
    Cml,
    /// STATUS_IOUT.
    Iout,
    /// STATUS_INPUT.
    Input,
    /// STATUS_TEMPERATURE.
    Temperature,
    /// STATUS_OTHER.
    Other,
    /// STATUS_MFR_SPECIFIC.
    MfrSpecific,
    /// STATUS_FANS_1_2.
    Fans12,
    /// STATUS_FANS_3_4.
    Fans34,
}

/// A bit of a register, as the number that has only this bit, and its name.
pub type Row = (u16, &'static str);

// STATUS_WORD; its lower byte is STATUS_BYTE.
static WORD: [Row; 16] = [
    (0x8000, "VOUT"),
    (0x4000, "IOUT_POUT"),
    (0x2000, "INPUT"),
    (0x1000, "MFR_SPECIFIC"),
    (0x0800, "POWER_GOOD#"),
    (0x0400, "FANS"),
    (0x0200, "OTHER"),
    (0x0100, "UNKNOWN"),
    (0x0080, "BUSY"),
    (0x0040, "OFF"),
    (0x0020, "VOUT_OV_FAULT"),
    (0x0010, "IOUT_OC_FAULT"),
    (0x0008, "VIN_UV_FAULT"),
    (0x0004, "TEMPERATURE"),
    (0x0002, "CML"),
    (0x0001, "NONE_OF_THE_ABOVE"),
];

static VOUT: [Row; 8] = [
    (0x80, "VOUT_OV_FAULT"),
    (0x40, "VOUT_OV_WARNING"),
    (0x20, "VOUT_UV_WARNING"),
    (0x10, "VOUT_UV_FAULT"),
    (0x08, "VOUT_MAX_MIN"),
    (0x04, "TON_MAX_FAULT"),
    (0x02, "TOFF_MAX_WARNING"),
    (0x01, "TRACKING"),
];

static CML: [Row; 8] = [
    (0x80, "COMMAND"),
    (0x40, "DATA"),
    (0x20, "PEC"),
    (0x10, "MEMORY"),
    (0x08, "PROCESSOR"),
    (0x04, "bit 2"),
    (0x02, "COMMUNICATION"),
    (0x01, "OTHER"),
];

static IOUT: [Row; 8] = [
    (0x80, "IOUT_OC_FAULT"),
    (0x40, "IOUT_OC_LV_FAULT"),
    (0x20, "IOUT_OC_WARNING"),
    (0x10, "IOUT_UC_FAULT"),
    (0x08, "CURRENT_SHARE_FAULT"),
    (0x04, "POWER_LIMITING"),
    (0x02, "POUT_OP_FAULT"),
    (0x01, "POUT_OP_WARNING"),
];

static INPUT: [Row; 8] = [
    (0x80, "VIN_OV_FAULT"),
    (0x40, "VIN_OV_WARNING"),
    (0x20, "VIN_UV_WARNING"),
    (0x10, "VIN_UV_FAULT"),
    (0x08, "UNIT_OFF_LOW_VIN"),
    (0x04, "IIN_OC_FAULT"),
    (0x02, "IIN_OC_WARNING"),
    (0x01, "PIN_OP_WARNING"),
];

static TEMPERATURE: [Row; 8] = [
    (0x80, "OT_FAULT"),
    (0x40, "OT_WARNING"),
    (0x20, "UT_WARNING"),
    (0x10, "UT_FAULT"),
    (0x08, "bit 3"),
    (0x04, "bit 2"),
    (0x02, "bit 1"),
    (0x01, "bit 0"),
];

static OTHER: [Row; 8] = [
    (0x80, "bit 7"),
    (0x40, "bit 6"),
    (0x20, "INPUT_A_FUSE"),
    (0x10, "INPUT_B_FUSE"),
    (0x08, "INPUT_A_ORING"),
    (0x04, "INPUT_B_ORING"),
    (0x02, "OUTPUT_ORING"),
    (0x01, "FIRST_TO_ASSERT_SMBALERT"),
];

static MFR_SPECIFIC: [Row; 8] = [
    (0x80, "bit 7"),
    (0x40, "bit 6"),
    (0x20, "bit 5"),
    (0x10, "bit 4"),
    (0x08, "bit 3"),
    (0x04, "bit 2"),
    (0x02, "bit 1"),
    (0x01, "bit 0"),
];

static FANS_1_2: [Row; 8] = [
    (0x80, "FAN_1_FAULT"),
    (0x40, "FAN_2_FAULT"),
    (0x20, "FAN_1_WARNING"),
    (0x10, "FAN_2_WARNING"),
    (0x08, "FAN_1_SPEED_OVERRIDDEN"),
    (0x04, "FAN_2_SPEED_OVERRIDDEN"),
    (0x02, "AIRFLOW_FAULT"),
    (0x01, "AIRFLOW_WARNING"),
];

static FANS_3_4: [Row; 8] = [
    (0x80, "FAN_3_FAULT"),
    (0x40, "FAN_4_FAULT"),
    (0x20, "FAN_3_WARNING"),
    (0x10, "FAN_4_WARNING"),
    (0x08, "FAN_3_SPEED_OVERRIDDEN"),
    (0x04, "FAN_4_SPEED_OVERRIDDEN"),
    (0x02, "bit 1"),
    (0x01, "bit 0"),
];

static CAPABILITY: [Row; 5] = [
    (0x10, "SMBALERT#"),
    (0x08, "IEEE half precision"),
    (0x04, "AVSBus"),
    (0x02, "bit 1"),
    (0x01, "bit 0"),
];

static ON_OFF: [Row; 3] = [(0x80, "bit 7"), (0x40, "bit 6"), (0x20, "bit 5")];

/// What CAPABILITY says beside PEC and the speed: the bits, the highest first, each with its name.
pub(crate) fn capability_rows() -> &'static [Row]
    ensures { map (λ row. (row.0, row.1.now)) result.now ≡ spec_capability_rows }
{
    &CAPABILITY
}

/// The reserved bits of ON_OFF_CONFIG, the highest first, each with its name.
pub(crate) fn on_off_rows() -> &'static [Row]
    ensures { map (λ row. (row.0, row.1.now)) result.now ≡ spec_on_off_rows }
{
    &ON_OFF
}

impl Status {
    /// The bits of the register, the highest first, each with its name.
    #[tactic(auto, unfolding(crate::specs::Statuses::rows_of))]
    pub fn rows(self) -> &'static [Row]
        ensures { map (λ row. (row.0, row.1.now)) result.now ≡ rows_of self }
    {
        match self {
            Status::Byte => &WORD[8..],
            Status::Word => &WORD,
            Status::Vout => &VOUT,
            Status::Cml => &CML,
            Status::Iout => &IOUT,
            Status::Input => &INPUT,
            Status::Temperature => &TEMPERATURE,
            Status::Other => &OTHER,
            Status::MfrSpecific => &MFR_SPECIFIC,
            Status::Fans12 => &FANS_1_2,
            Status::Fans34 => &FANS_3_4,
        }
    }
}
