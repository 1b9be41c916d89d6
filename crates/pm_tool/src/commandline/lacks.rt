//! The texts of `--lacks`: which registers the receiver of a log lets parts lack.
ghost use Rattle.std.specs.Prelude.{◌≡◌, ◌<◌, None, Some, if◌then◌else◌, [], map, option_map, unwrap_or};
ghost use Rattle.pm_log.specs.Lacks.{lacking_more};
ghost use Rattle.pm_tool.specs.Lacking as spec;
ghost use Rattle.pm_tool.specs.Question.{items};

use crate::numbers::{first_item, first_part};
use pm_limits::PartRegisters;
use pm_lines::read_byte;
use pm_log::Lacks;
use pm_table::address_ok;

/// What the texts, as `58:VOUT_MAX,VOUT_MIN`, say that parts lack; None if one is no address with names of registers.
pub(super) fn read_lacks(texts: Option<&[&str]>) -> Option<Lacks>
    ensures { result ≡ spec.lacks_asked (unwrap_or (option_map (λ list. map (λ text. text.now) list.now) texts.entry) []) }
{
    match texts {
        Some(texts) => read_texts(texts),
        None => Some(Lacks::nothing()),
    }
}

// What texts that there are say.
fn read_texts(texts: &[&str]) -> Option<Lacks>
    ensures { result ≡ spec.lacks_asked (map (λ text. text.now) texts.now) }
{
    let mut lacks = Lacks::nothing();
    for text in texts {
        if !add_text(&mut lacks, text) {
            return None;
        }
    }
    Some(lacks)
}

// The text says that a part lacks registers, too; false if it doesn't.
fn add_text(lacks: &mut Lacks, text: &str) -> bool
    ensures { (if result then Some lacks.new.parts else None) ≡ spec.lacks_in_text lacks.old.parts text.now }
{
    let Some((addr, names)) = first_part(text) else {
        return false;
    };
    if first_part(names).is_some() {
        return false;
    }
    add_at(lacks, read_byte(addr.as_bytes()), names)
}

// The part at this address lacks registers with these names, too.
fn add_at(lacks: &mut Lacks, addr: Option<u8>, names: &str) -> bool
    ensures { (if result then Some lacks.new.parts else None) ≡ spec.lacks_at lacks.old.parts addr names.now }
{
    match addr {
        Some(addr) => address_ok(addr) && add_names(lacks, addr, names),
        None => false,
    }
}

// The part at this address lacks registers with these names, too, of which there are commas between.
fn add_names(lacks: &mut Lacks, addr: u8, names: &str) -> bool
    requires { addr < 128 }
    ensures { (if result then Some lacks.new.parts else None) ≡ spec.lacks_names lacks.old.parts addr (items names.now) }
{
    let mut left = names;
    'names: loop {
        match first_item(left) {
            Some((name, after)) => {
                if !add_name(lacks, addr, name) {
                    return false;
                }
                left = after;
            }
            None => return add_name(lacks, addr, left),
        }
    }
}

// The part at this address lacks the register with this name, too.
fn add_name(lacks: &mut Lacks, addr: u8, name: &str) -> bool
    requires { addr < 128 }
    ensures { (if result then Some lacks.new.parts else None)
        ≡ option_map (λ part. lacking_more lacks.old.parts addr part) (spec.lacking_named name.now) }
{
    match lacking_named(name) {
        Some(part) => {
            lacks.add(addr, part);
            true
        }
        None => false,
    }
}

// A part that lacks the register with this name.
fn lacking_named(name: &str) -> Option<PartRegisters>
    ensures { result ≡ spec.lacking_named name.now }
{
    let mut part = PartRegisters::all();
    match name {
        "VOUT_MAX" => part.vout_max = false,
        "VOUT_MARGIN_HIGH" => part.vout_margin_high = false,
        "VOUT_MARGIN_LOW" => part.vout_margin_low = false,
        "VOUT_MIN" => part.vout_min = false,
        _ => return None,
    }
    Some(part)
}
