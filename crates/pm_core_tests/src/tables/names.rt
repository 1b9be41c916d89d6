//! Names of codes, registers and cells, and the cells of a device in their order.

use crate::checks::{agrees, prints};
use pm_table::{Cell, Code, Reg, UnknownName};
use std::alloc::AllocError;

static CODES: [(u8, &str); 5] = [
    (0x00, "PAGE"),
    (0x21, "VOUT_COMMAND"),
    (0x8D, "READ_TEMPERATURE_1"),
    (0x04, "04h"),
    (0xFA, "FAh"),
];

static CELLS: [(Cell, &str); 4] = [
    (Cell::Out(0, Reg::Operation), "0 OPERATION"),
    (Cell::Out(7, Reg::MarginHigh), "7 VOUT_MARGIN_HIGH"),
    (Cell::Out(255, Reg::VoutMin), "255 VOUT_MIN"),
    (Cell::Protect, "- WRITE_PROTECT"),
];

#[test]
fn codes_and_cells_are_told_by_name(rt: HostRuntime) -> Result<(), AllocError> {
    // A code is told by its name or its number.
    for (row, (code, wanted)) in CODES.iter().enumerate() {
        prints(&rt, row, &Code(*code), wanted)?;
    }
    // A cell is told by its output and its register.
    for (row, (cell, wanted)) in CELLS.iter().enumerate() {
        prints(&rt, row, cell, wanted)?;
    }
    Ok(())
}

// The register of a name.
fn register(name: &str) -> Result<Reg, UnknownName> {
    name.parse::<Reg>()
}

// The number of a name's code.
fn number(name: &str) -> Option<u8> {
    match name.parse::<Code>() {
        Ok(code) => Some(code.0),
        Err(_) => None,
    }
}

static NAMES: [(&str, Option<u8>, Result<Reg, UnknownName>); 7] = [
    ("OPERATION", Some(0x01), Ok(Reg::Operation)),
    ("VOUT_MARGIN_LOW", Some(0x26), Ok(Reg::MarginLow)),
    ("STATUS_CML", Some(0x7E), Err(UnknownName)),
    ("", None, Err(UnknownName)),
    ("vout_command", None, Err(UnknownName)),
    ("VOUT_COMMAND ", None, Err(UnknownName)),
    ("VOUT", None, Err(UnknownName)),
];

#[test]
fn a_name_leads_to_its_code_and_its_register(rt: HostRuntime) {
    for (row, (name, code, reg)) in NAMES.iter().enumerate() {
        agrees(&rt, row, &number(name), code);
        agrees(&rt, row, &register(name), reg);
    }
}

static COUNTS: [(u8, usize); 4] = [(0, 1), (1, 7), (2, 13), (8, 49)];

#[test]
fn a_device_has_its_cells_in_their_order(rt: HostRuntime) {
    for (row, (outputs, wanted)) in COUNTS.iter().enumerate() {
        agrees(&rt, row, &Cell::all(*outputs).count(), wanted);
    }
    compare! { &rt;
        4, Cell::all(1).last() => Some(Cell::Protect);
        5, Cell::all(2).nth(6) => Some(Cell::Out(1, Reg::Operation));
        6, Cell::all(2).nth(11) => Some(Cell::Out(1, Reg::VoutMin));
    }
}
