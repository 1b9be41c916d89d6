//! The engines as a whole: readers and writers that fail, refused memory, long texts, the words of each refusal of a text,
//! and reports with every word and number in a place of its own.

mod counts;
mod doubts;
mod failures;
mod faults;
mod gathered;
mod long_text;
mod memory;
mod reports;
mod sizes;
mod worked;
