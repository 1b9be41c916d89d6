//! Long texts, given by what is repeated.

use std::alloc::{AllocError, Global};

/// A text: how it begins, what is repeated and how often, and how it ends.
pub type Long = ([&'static str; 2], &'static str, usize, &'static str);

/// The whole text.
pub fn text_of(alloc: Global, long: Long) -> Result<Vec<u8>, AllocError> {
    let (heads, part, count, tail) = long;
    let mut text = Vec::new(alloc);
    for head in heads {
        text.extend_from_slice(head.as_bytes())?;
    }
    for _ in 0..count {
        text.extend_from_slice(part.as_bytes())?;
    }
    text.extend_from_slice(tail.as_bytes())?;
    Ok(text)
}
