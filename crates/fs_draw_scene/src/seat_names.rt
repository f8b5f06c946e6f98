//! The names that a journal's comments give to its seats.

use fs_script::limits::THREAD_NAME_LIMIT;
use fs_words::FaultKind;
use fs_words::lines::{cut_line, cut_words};
use fs_words::words::{is_word, number_of};
use std::alloc::{AllocError, Global};
use std::collections::BTreeMap;

fn is_name_byte(byte: u8) -> bool {
    matches!(byte, b'a'..=b'z' | b'0'..=b'9' | b'_')
}

/// Whether a seat may have this name: its bytes are those of a thread's name, and no more of them.
fn is_name(word: &[u8]) -> bool {
    word.len() <= THREAD_NAME_LIMIT && word.iter().all(|byte| is_name_byte(*byte))
}

/// The seat that the words of a comment name, and its name.
fn named<'a>(words: &[&'a [u8]]) -> Option<(u64, &'a [u8])> {
    match words {
        [mark, seat, number, name]
            if is_word(mark, b"#") && is_word(seat, b"seat") && is_name(name) => {
            Some((number_of(number)?, *name))
        }
        _ => None,
    }
}

/// The names of seats by their numbers: of each that has a comment `# seat NUMBER NAME`, the name in the last one.
pub(crate) fn seat_names<'a>(
    alloc: Global,
    text: &'a [u8],
) -> Result<BTreeMap<u64, &'a [u8]>, AllocError> {
    let mut names = BTreeMap::new(alloc);
    let mut words = Vec::new(alloc);
    let mut left = text;
    'lines: while let Some((line, rest)) = cut_line(left) {
        if line.first() == Some(&b'#') {
            match cut_words(line, &mut words) {
                Ok(()) => {
                    if let Some((seat, name)) = named(&words) {
                        names.insert(seat, name)?;
                    }
                }
                Err(FaultKind::OutOfMemory) => return Err(AllocError),
                Err(_) => {}
            }
        }
        left = rest;
    }
    Ok(names)
}
