//! What every test asks, and the texts that it makes, as calls: a macro that words a text is proved anew wherever it stands.
ghost use Rattle.std.specs.Prelude.{IsTrue};

use std::alloc::{AllocError, Global};
use std::fmt::{Debug, Display};
use std::process::Abort;

/// Texts one after the other.
pub(crate) fn joined(alloc: Global, texts: &[&str]) -> Result<String, AllocError> {
    texts.concat(alloc)
}

/// A value as it is printed to debug.
pub(crate) fn shown(alloc: Global, value: &impl Debug) -> Result<String, AllocError> {
    format!(in alloc; "{value:?}")
}

/// A value as it is printed, with a text after it.
pub(crate) fn printed(
    alloc: Global,
    value: &impl Display,
    more: &str,
) -> Result<String, AllocError> {
    format!(in alloc; "{value}{more}")
}

/// The words of a command line, `pmb` and these.
pub(crate) fn words_of<'a>(alloc: Global, words: &'a str) -> Result<Vec<&'a str>, AllocError> {
    let mut all = vec![in alloc; "pmb"; 1]?;
    for word in words.split(' ') {
        all.push(word)?;
    }
    Ok(all)
}

/// Fails if what is found isn't what is expected, and says both and which row it was.
pub(crate) fn equal<T: PartialEq + Debug>(rt: &impl Abort, found: &T, wanted: &T, at: &impl Debug) {
    is_true(rt, found == wanted, &(found, wanted, at));
}

/// Fails if this doesn't hold, and says which row it was.
pub(crate) fn is_true(rt: &impl Abort, holds: bool, at: &impl Debug)
    ensures { IsTrue holds }
{
    assert!(rt; holds, "{at:?}");
}
