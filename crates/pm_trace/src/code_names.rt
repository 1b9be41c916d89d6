//! The names of the command codes as PMBus 1.3 Part II prints them, beside those that the command table has.
ghost use Rattle.std.specs.Prelude.{◌≡◌, map};
ghost use Rattle.pm_trace.specs.CodeNames.{name_among as spec_name_among, rows_from_00, rows_from_20, rows_from_40, rows_from_60, rows_from_80, rows_from_A0, rows_near as spec_rows_near, standard_name as spec_standard_name};

use pm_table::Code;

/// A code and its name.
type CodeRow = (u8, &'static str);

static FROM_00: [CodeRow; 12] = [
    (0x02, "ON_OFF_CONFIG"),
    (0x04, "PHASE"),
    (0x07, "ZONE_CONFIG"),
    (0x08, "ZONE_ACTIVE"),
    (0x11, "STORE_DEFAULT_ALL"),
    (0x12, "RESTORE_DEFAULT_ALL"),
    (0x13, "STORE_DEFAULT_CODE"),
    (0x14, "RESTORE_DEFAULT_CODE"),
    (0x17, "STORE_USER_CODE"),
    (0x18, "RESTORE_USER_CODE"),
    (0x1A, "QUERY"),
    (0x1B, "SMBALERT_MASK"),
];

static FROM_20: [CodeRow; 21] = [
    (0x22, "VOUT_TRIM"),
    (0x23, "VOUT_CAL_OFFSET"),
    (0x27, "VOUT_TRANSITION_RATE"),
    (0x28, "VOUT_DROOP"),
    (0x29, "VOUT_SCALE_LOOP"),
    (0x2A, "VOUT_SCALE_MONITOR"),
    (0x31, "POUT_MAX"),
    (0x32, "MAX_DUTY"),
    (0x33, "FREQUENCY_SWITCH"),
    (0x34, "POWER_MODE"),
    (0x35, "VIN_ON"),
    (0x36, "VIN_OFF"),
    (0x37, "INTERLEAVE"),
    (0x38, "IOUT_CAL_GAIN"),
    (0x39, "IOUT_CAL_OFFSET"),
    (0x3A, "FAN_CONFIG_1_2"),
    (0x3B, "FAN_COMMAND_1"),
    (0x3C, "FAN_COMMAND_2"),
    (0x3D, "FAN_CONFIG_3_4"),
    (0x3E, "FAN_COMMAND_3"),
    (0x3F, "FAN_COMMAND_4"),
];

static FROM_40: [CodeRow; 30] = [
    (0x40, "VOUT_OV_FAULT_LIMIT"),
    (0x41, "VOUT_OV_FAULT_RESPONSE"),
    (0x42, "VOUT_OV_WARN_LIMIT"),
    (0x43, "VOUT_UV_WARN_LIMIT"),
    (0x44, "VOUT_UV_FAULT_LIMIT"),
    (0x45, "VOUT_UV_FAULT_RESPONSE"),
    (0x46, "IOUT_OC_FAULT_LIMIT"),
    (0x47, "IOUT_OC_FAULT_RESPONSE"),
    (0x48, "IOUT_OC_LV_FAULT_LIMIT"),
    (0x49, "IOUT_OC_LV_FAULT_RESPONSE"),
    (0x4A, "IOUT_OC_WARN_LIMIT"),
    (0x4B, "IOUT_UC_FAULT_LIMIT"),
    (0x4C, "IOUT_UC_FAULT_RESPONSE"),
    (0x4F, "OT_FAULT_LIMIT"),
    (0x50, "OT_FAULT_RESPONSE"),
    (0x51, "OT_WARN_LIMIT"),
    (0x52, "UT_WARN_LIMIT"),
    (0x53, "UT_FAULT_LIMIT"),
    (0x54, "UT_FAULT_RESPONSE"),
    (0x55, "VIN_OV_FAULT_LIMIT"),
    (0x56, "VIN_OV_FAULT_RESPONSE"),
    (0x57, "VIN_OV_WARN_LIMIT"),
    (0x58, "VIN_UV_WARN_LIMIT"),
    (0x59, "VIN_UV_FAULT_LIMIT"),
    (0x5A, "VIN_UV_FAULT_RESPONSE"),
    (0x5B, "IIN_OC_FAULT_LIMIT"),
    (0x5C, "IIN_OC_FAULT_RESPONSE"),
    (0x5D, "IIN_OC_WARN_LIMIT"),
    (0x5E, "POWER_GOOD_ON"),
    (0x5F, "POWER_GOOD_OFF"),
];

static FROM_60: [CodeRow; 15] = [
    (0x60, "TON_DELAY"),
    (0x61, "TON_RISE"),
    (0x62, "TON_MAX_FAULT_LIMIT"),
    (0x63, "TON_MAX_FAULT_RESPONSE"),
    (0x64, "TOFF_DELAY"),
    (0x65, "TOFF_FALL"),
    (0x66, "TOFF_MAX_WARN_LIMIT"),
    (0x68, "POUT_OP_FAULT_LIMIT"),
    (0x69, "POUT_OP_FAULT_RESPONSE"),
    (0x6A, "POUT_OP_WARN_LIMIT"),
    (0x6B, "PIN_OP_WARN_LIMIT"),
    (0x7B, "STATUS_IOUT"),
    (0x7C, "STATUS_INPUT"),
    (0x7D, "STATUS_TEMPERATURE"),
    (0x7F, "STATUS_OTHER"),
];

static FROM_80: [CodeRow; 27] = [
    (0x80, "STATUS_MFR_SPECIFIC"),
    (0x81, "STATUS_FANS_1_2"),
    (0x82, "STATUS_FANS_3_4"),
    (0x83, "READ_KWH_IN"),
    (0x84, "READ_KWH_OUT"),
    (0x85, "READ_KWH_CONFIG"),
    (0x86, "READ_EIN"),
    (0x87, "READ_EOUT"),
    (0x89, "READ_IIN"),
    (0x8A, "READ_VCAP"),
    (0x8E, "READ_TEMPERATURE_2"),
    (0x8F, "READ_TEMPERATURE_3"),
    (0x90, "READ_FAN_SPEED_1"),
    (0x91, "READ_FAN_SPEED_2"),
    (0x92, "READ_FAN_SPEED_3"),
    (0x93, "READ_FAN_SPEED_4"),
    (0x94, "READ_DUTY_CYCLE"),
    (0x95, "READ_FREQUENCY"),
    (0x96, "READ_POUT"),
    (0x97, "READ_PIN"),
    (0x99, "MFR_ID"),
    (0x9A, "MFR_MODEL"),
    (0x9B, "MFR_REVISION"),
    (0x9C, "MFR_LOCATION"),
    (0x9D, "MFR_DATE"),
    (0x9E, "MFR_SERIAL"),
    (0x9F, "APP_PROFILE_SUPPORT"),
];

static FROM_A0: [CodeRow; 36] = [
    (0xA0, "MFR_VIN_MIN"),
    (0xA1, "MFR_VIN_MAX"),
    (0xA2, "MFR_IIN_MAX"),
    (0xA3, "MFR_PIN_MAX"),
    (0xA4, "MFR_VOUT_MIN"),
    (0xA5, "MFR_VOUT_MAX"),
    (0xA6, "MFR_IOUT_MAX"),
    (0xA7, "MFR_POUT_MAX"),
    (0xA8, "MFR_TAMBIENT_MAX"),
    (0xA9, "MFR_TAMBIENT_MIN"),
    (0xAA, "MFR_EFFICIENCY_LL"),
    (0xAB, "MFR_EFFICIENCY_HL"),
    (0xAC, "MFR_PIN_ACCURACY"),
    (0xAD, "IC_DEVICE_ID"),
    (0xAE, "IC_DEVICE_REV"),
    (0xB0, "USER_DATA_00"),
    (0xB1, "USER_DATA_01"),
    (0xB2, "USER_DATA_02"),
    (0xB3, "USER_DATA_03"),
    (0xB4, "USER_DATA_04"),
    (0xB5, "USER_DATA_05"),
    (0xB6, "USER_DATA_06"),
    (0xB7, "USER_DATA_07"),
    (0xB8, "USER_DATA_08"),
    (0xB9, "USER_DATA_09"),
    (0xBA, "USER_DATA_10"),
    (0xBB, "USER_DATA_11"),
    (0xBC, "USER_DATA_12"),
    (0xBD, "USER_DATA_13"),
    (0xBE, "USER_DATA_14"),
    (0xBF, "USER_DATA_15"),
    (0xC0, "MFR_MAX_TEMP_1"),
    (0xC1, "MFR_MAX_TEMP_2"),
    (0xC2, "MFR_MAX_TEMP_3"),
    (0xFE, "MFR_SPECIFIC_COMMAND_EXT"),
    (0xFF, "PMBUS_COMMAND_EXT"),
];

/// The name of a code; no text if the standard has none, or none but its number.
pub fn standard_name(code: u8) -> &'static str
    ensures { result.now ≡ spec_standard_name code }
{
    let code = Code(code);
    if code.is_known() {
        code.name()
    } else {
        name_among(rows_near(code.0), code.0)
    }
}

// The name of a code among these rows.
fn name_among(rows: &'static [CodeRow], code: u8) -> &'static str
    ensures { result.now ≡ spec_name_among (map (λ row. (row.0, row.1.now)) rows.now) code }
{
    let [(known, name), rest @ ..] = rows else {
        return "";
    };
    if *known == code {
        return name;
    }
    name_among(rest, code)
}

// The rows among which a code stands.
fn rows_near(code: u8) -> &'static [CodeRow]
    ensures { map (λ row. (row.0, row.1.now)) result.now ≡ spec_rows_near code }
{
    if code < 0x20 {
        from_00()
    } else if code < 0x40 {
        from_20()
    } else if code < 0x60 {
        from_40()
    } else if code < 0x80 {
        from_60()
    } else if code < 0xA0 {
        from_80()
    } else {
        from_a0()
    }
}

// 00h to 1Fh.
#[tactic(auto, unfolding(crate::specs::CodeNames::rows_from_00))]
fn from_00() -> &'static [CodeRow]
    ensures { map (λ row. (row.0, row.1.now)) result.now ≡ rows_from_00 }
{
    &FROM_00
}

// 20h to 3Fh.
#[tactic(auto, unfolding(crate::specs::CodeNames::rows_from_20))]
fn from_20() -> &'static [CodeRow]
    ensures { map (λ row. (row.0, row.1.now)) result.now ≡ rows_from_20 }
{
    &FROM_20
}

// 40h to 5Fh.
#[tactic(auto, unfolding(crate::specs::CodeNames::rows_from_40))]
fn from_40() -> &'static [CodeRow]
    ensures { map (λ row. (row.0, row.1.now)) result.now ≡ rows_from_40 }
{
    &FROM_40
}

// 60h to 7Fh.
#[tactic(auto, unfolding(crate::specs::CodeNames::rows_from_60))]
fn from_60() -> &'static [CodeRow]
    ensures { map (λ row. (row.0, row.1.now)) result.now ≡ rows_from_60 }
{
    &FROM_60
}

// 80h to 9Fh.
#[tactic(auto, unfolding(crate::specs::CodeNames::rows_from_80))]
fn from_80() -> &'static [CodeRow]
    ensures { map (λ row. (row.0, row.1.now)) result.now ≡ rows_from_80 }
{
    &FROM_80
}

// A0h to FFh.
#[tactic(auto, unfolding(crate::specs::CodeNames::rows_from_A0))]
fn from_a0() -> &'static [CodeRow]
    ensures { map (λ row. (row.0, row.1.now)) result.now ≡ rows_from_A0 }
{
    &FROM_A0
}
