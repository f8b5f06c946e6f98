//! Calls and replies that texts spell.

use anyhow::{Result, bail};
use fs_calls::{Call, Reply};
use fs_names::Limits;
use fs_text::calls::call_at;
use fs_text::entries_in;
use fs_text::lines::cut_words;
use fs_timeline::Entry;
use fs_words::Lines;
use std::alloc::Global;

/// The call that a text spells.
fn call_of(alloc: Global, text: &str) -> Result<Call> {
    let mut words = Vec::new(alloc);
    cut_words(text.as_bytes(), &mut words)?;
    Ok(call_at(alloc, Limits::LARGEST, &words)?)
}

/// The calls that texts spell.
pub fn calls_of(alloc: Global, texts: &[&str]) -> Result<Vec<Call>> {
    let mut calls = Vec::new(alloc);
    for text in texts {
        calls.push(call_of(alloc, text)?)?;
    }
    Ok(calls)
}

/// The entry of a return with the reply that a text spells.
pub fn return_of(alloc: Global, text: &str) -> Result<Vec<Entry>> {
    let line = format!(in alloc; "returns\nreturn 1 {text}\n")?;
    let lines = Lines::behind_header(line.as_bytes(), b"returns")?;
    Ok(entries_in(alloc, Limits::LARGEST, lines)?)
}

/// The reply of a return.
pub fn reply_in(entries: &[Entry]) -> Result<&Reply> {
    match entries.last() {
        Some(Entry::Return(_, reply)) => Ok(reply),
        _ => bail!("no reply"),
    }
}
