//! What columns and tables are made of.

use std::alloc::AllocError;

/// How many bytes a text has before its first space.
pub(crate) fn word_len(text: &[u8]) -> usize {
    match text.iter().position(|byte| *byte == b' ') {
        Some(at) => at,
        None => text.len(),
    }
}

/// The first word of a text, and what comes after it; none where it has one word or begins with a space.
pub(crate) fn cut_word(text: &[u8]) -> Option<(&[u8], &[u8])> {
    let len = word_len(text);
    if len == 0 {
        return None;
    }
    let word = text.get(..len)?;
    let rest = text.get(len.checked_add(1)?..)?;
    Some((word, rest))
}

/// Whether a word is a number.
pub(crate) fn is_number(word: &[u8]) -> bool {
    !word.is_empty() && word.iter().all(|byte| byte.is_ascii_digit())
}

/// Adds so many spaces.
pub(crate) fn push_spaces(count: usize, laid: &mut Vec<u8>) -> Result<(), AllocError> {
    for _ in 0..count {
        laid.push(b' ')?;
    }
    Ok(())
}
