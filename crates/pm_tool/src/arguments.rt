//! The arguments of a process, as words.
ghost use Rattle.std.specs.Prelude.{◌≡◌, IfOk, map, string_bytes};
ghost use Rattle.std.specs.Vec.Iter.{into_iter_items};

use std::alloc::{AllocError, Global};
use std::env::Args;

/// The arguments as texts, the program's name first. Takes memory for them.
pub fn texts_of(alloc: Global, given: Args) -> Result<Vec<String>, AllocError>
    ensures { IfOk result (λ texts. texts.items ≡ into_iter_items given) }
{
    given.collect(alloc)
}

/// The texts as words. Takes memory for the list.
pub fn words_of(alloc: Global, given: &Vec<String>) -> Result<Vec<&str>, AllocError>
    ensures { IfOk result (λ words. map (λ word. word.now) words.items ≡ map string_bytes given.now.items) }
{
    let mut words = Vec::new(alloc);
    'words: for text in given {
        words.push(text.as_str())?;
    }
    Ok(words)
}
