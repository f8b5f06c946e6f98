//! Files of lines, each of which is written with its answer. Bytes are in a line with escapes; a line that begins with
//! `#` is a comment.
//!
//! `order NAME NAME` compares names (by `cmp`, `same` and `is_above`), `paths PATH PATH` paths, and `numbers N N`
//! numbers (by `cmp` and `==`). `again NAME` gives the bytes of a copy of a name. `copy PATH` compares a path with its
//! copy, and `parent PATH` says how many names the parent has, and the last name. `nothing` says what no bytes are, as
//! a path and as a name, and `faults` has the words of all faults. `same REPLY = REPLY` and `calls CALL = CALL`
//! compare, and `errno NAME` gives the number of an error. `parts AT BYTES` gives two parts of a word, `held BYTES`
//! puts bytes and names into lists and takes them out, `added BYTES` appends in each way, and `back BYTES` takes it
//! back.

use crate::{names, words};
use anyhow::{Result, bail};
use fs_text::Addition;
use percent_encoding::percent_decode;
use std::alloc::{AllocError, Global};
use std::fs;
use std::rt::Files;

/// The first word of a line, and what comes after it.
fn first_word(line: &str) -> (&str, &str) {
    line.split_once(' ').unwrap_or((line, ""))
}

/// The bytes that a text with escapes spells.
pub fn bytes_of(alloc: Global, text: &str) -> Result<Vec<u8>, AllocError> {
    let bytes = percent_decode(text.as_bytes()).into_cow(alloc)?;
    Vec::from_slice(alloc, &bytes)
}

/// Pieces, each with escapes between brackets.
pub fn shown(alloc: Global, pieces: &[&[u8]]) -> Result<String> {
    let mut line = Addition::new(Vec::new(alloc));
    for piece in pieces {
        line.push(b"[")?;
        line.push_escaped(alloc, piece)?;
        line.push(b"]")?;
    }
    Ok(String::from_str(alloc, str::from_utf8(&line.kept())?)?)
}

/// The answer to a line.
fn answer(alloc: Global, line: &str) -> Result<String> {
    let (word, rest) = first_word(line);
    let (first, second) = first_word(rest);
    match word {
        "order" => names::order(alloc, first, second),
        "paths" => names::paths(alloc, first, second),
        "parent" => names::parent(alloc, rest),
        "again" => names::again(alloc, rest),
        "copy" => names::copy(alloc, rest),
        "numbers" => names::numbers(alloc, first.parse()?, second.parse()?),
        "nothing" => names::nothing(alloc),
        "faults" => names::faults(alloc),
        "same" => words::same(alloc, rest),
        "calls" => words::calls(alloc, rest),
        "errno" => words::errno(alloc, rest),
        "parts" => words::two_parts(alloc, first.parse()?, second.as_bytes()),
        "held" => words::held(alloc, rest.as_bytes()),
        "added" => words::added(alloc, &bytes_of(alloc, rest)?),
        "back" => words::back(alloc, &bytes_of(alloc, rest)?),
        _ => bail!("{word}: no line of a transcript"),
    }
}

/// The lines of a file, in order.
pub fn go_through<R: Files + AllocGlobal + Print>(rt: &R, file: &str) -> Result<()> {
    let text = fs::read_to_string(rt, file)?;
    println!(rt; "== {file}")?;
    for line in text.lines() {
        if line.is_empty() || line.starts_with('#') {
            println!(rt; "{line}")?;
        } else {
            let answer = answer(rt.alloc(), line)?;
            println!(rt; "{line} -> {}", answer.as_str())?;
        }
    }
    Ok(())
}
