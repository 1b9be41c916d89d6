//! Which words of a command line are taken, and how others are refused.

use crate::checks::is_true;
use pm_log::Lacks;
use pm_tool::{Chosen, chosen};
use std::process::Abort;
use std::test::Fail;

// The words choose this command.
fn is_chosen<'a>(
    rt: &(impl Abort + AllocGlobal),
    words: &'a [&'a str],
    wanted: Chosen<'a>,
) -> Result<(), Fail> {
    let found = chosen(rt.alloc(), words)?;
    is_true(rt, found == wanted, &words);
    Ok(())
}

#[test]
fn commands_are_chosen_by_their_names(rt: HostRuntime) -> Result<(), Fail> {
    is_chosen(&rt, &["pmb", "hear"], Chosen::Hear)?;
    is_chosen(&rt, &["pmb", "replay"], Chosen::Replay)?;
    is_chosen(&rt, &["pmb", "decode"], Chosen::Decode)?;
    let none = Chosen::Check {
        lacks: Some(Lacks::nothing()),
    };
    is_chosen(&rt, &["pmb", "check"], none)
}

#[test]
fn number_is_chosen_with_its_texts(rt: HostRuntime) -> Result<(), Fail> {
    let word = Chosen::Number {
        format: "linear11",
        word: Some("87FF"),
        micro: None,
    };
    is_chosen(
        &rt,
        &["pmb", "number", "--format=linear11", "--word=87FF"],
        word,
    )?;
    let micro = Chosen::Number {
        format: "ulinear16:-12",
        word: None,
        micro: Some("-3300000"),
    };
    #[rattlefmt::skip]
    let words = ["pmb", "number", "--micro=-3300000", "--format=ulinear16:-12"];
    is_chosen(&rt, &words, micro)?;
    // Without `=`, and with neither a format nor a micro.
    let alone = Chosen::Number {
        format: "",
        word: Some("0001"),
        micro: None,
    };
    is_chosen(&rt, &["pmb", "number", "--word", "0001"], alone)
}
