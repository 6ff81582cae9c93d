//! The known word that is nearest to an unknown one.

use crate::failure::Failure;
use std::alloc::{AllocError, Global};
use strsim::osa_distance;

/// The known word that the given one is, but for a mistaken letter in three, in small letters.
fn nearest<'a>(
    alloc: Global,
    word: &str,
    known: &[&'a str],
) -> Result<Option<&'a str>, AllocError> {
    let word = word.to_ascii_lowercase(alloc)?;
    let mut best = None;
    let mut least = (word.len() / 3).max(1);
    for it in known {
        let edits = osa_distance(alloc, word.as_str(), it)?;
        if edits < least || best.is_none() && edits == least {
            best = Some(*it);
            least = edits;
        }
    }
    Ok(best)
}

/// The failure for a word that is none of the known ones, of which the message names all, and one that is near.
pub fn unknown(alloc: Global, what: &str, word: &str, known: &[&str]) -> Failure {
    match message(alloc, what, word, known) {
        Ok(text) => Failure::Usage(text),
        Err(_) => Failure::Memory,
    }
}

fn message(alloc: Global, what: &str, word: &str, known: &[&str]) -> Result<String, AllocError> {
    let mut text = format!(in alloc; "unknown {what} '{word}'")?;
    if let Some(near) = nearest(alloc, word, known)? {
        write!(text, ": did you mean '{near}'?")?;
    }
    text.push_str(" (one of ")?;
    for (at, it) in known.iter().enumerate() {
        if at > 0 {
            text.push_str(", ")?;
        }
        text.push_str(it)?;
    }
    text.push(')')?;
    Ok(text)
}
