//! A packet of a capture as fields of an object of JSON: as the command table has it, with its value, or by its code and bytes.
//!
//! Fields have keys in one order, and no spaces. Each text in them is made of letters, digits, spaces and a few signs of which none
//! has to be escaped. The object around them, and the counts, are not here.

mod fault;
mod fields;
mod judged;
mod marks;
mod otherwise;
mod value;

pub use fields::{push_address_field, push_number_field, push_signed_field_if, push_text_field};
pub use judged::push_judged_fields;
pub use marks::{push_lack_field, push_marks_fields, push_received_field};
pub use otherwise::{push_other_fields, push_other_payload};
