//! Entries as lines of a text.

ghost use Rattle.std.specs.Prelude.{◌≡◌, ◌++◌, ◌∷◌, OnOk, OnErr};
ghost use Rattle.std.specs.List.{AllByRecursion, flat_map, join_with_byte};
ghost use Rattle.fs_names.specs.Limits.{largest};
ghost use Rattle.fs_words.specs.Words.{escaped, path_word};
ghost use Rattle.fs_text.specs.Calls.{call_words};
ghost use Rattle.fs_text.specs.Fits.{FitsName, FitsPath, FitsCall, FitsReply, FitsEntry};
ghost use Rattle.fs_calls.specs.declared.call.Call.TheVariants.{ListAfter, Read, Write};
ghost use Rattle.fs_text.specs.Journal.{reply_words, entry_words, entry_line, kind_word, errno_word};

use fs_calls::{Call, Errno, NameList, Reply};
use fs_names::{Kind, Path};
use fs_timeline::Entry;
use fs_words::Addition;
use fs_words::addition::put_back;
use std::alloc::{AllocError, Global};
use std::mem;

/// A word with its space, and a path after it.
#[tactic(auto, using(crate::proofs::FitLemmas::path_fits))]
fn push_with_path(
    alloc: Global,
    word: &[u8],
    path: &Path,
    line: &mut Addition,
) -> Result<(), AllocError>
    ensures ok { OnOk result (line.new.added ≡ line.old.added ++ word.now ++ path_word path.now) }
    ensures path { OnOk result (FitsPath largest path.now) }
    ensures before { line.new.before ≡ line.old.before }
{
    line.push(word)?;
    line.push_path(alloc, path)
}

/// A word with its space, and two paths after it.
fn push_with_paths(
    alloc: Global,
    word: &[u8],
    path: &Path,
    other: &Path,
    line: &mut Addition,
) -> Result<(), AllocError>
    ensures ok { OnOk result (line.new.added ≡ line.old.added ++ word.now ++ path_word path.now ++ 32 ∷ path_word other.now) }
    ensures paths { OnOk result (FitsPath largest path.now × FitsPath largest other.now) }
    ensures before { line.new.before ≡ line.old.before }
{
    push_with_path(alloc, word, path, line)?;
    push_with_path(alloc, b" ", other, line)
}

fn push_call(alloc: Global, call: &Call, line: &mut Addition) -> Result<(), AllocError>
    ensures ok { OnOk result (line.new.added ≡ line.old.added ++ join_with_byte 32 (call_words call.now)) }
    ensures fits { OnOk result (FitsCall largest call.now) }
    ensures before { line.new.before ≡ line.old.before }
{
    match call {
        Call::Mkdir(path) => push_with_path(alloc, b"mkdir ", path, line),
        Call::Mknod(path) => push_with_path(alloc, b"mknod ", path, line),
        Call::Unlink(path) => push_with_path(alloc, b"unlink ", path, line),
        Call::Rmdir(path) => push_with_path(alloc, b"rmdir ", path, line),
        Call::Rename(from, to) => push_with_paths(alloc, b"rename ", from, to, line),
        Call::Exchange(path, other) => push_with_paths(alloc, b"exchange ", path, other, line),
        Call::Stat(path) => push_with_path(alloc, b"stat ", path, line),
        Call::Readdir(path) => push_with_path(alloc, b"readdir ", path, line),
        Call::ListAfter(count, path, after) => push_list(alloc, path, after, *count, line),
        Call::Read(path, off, count) => push_read(alloc, path, *off, *count, line),
        Call::Write(path, off, bytes) => push_write(alloc, path, *off, bytes.as_slice(), line),
        Call::Truncate(path, size) => {
            push_with_path(alloc, b"truncate ", path, line)?;
            line.push_with_number(b" ", *size)
        }
    }
}

fn push_list(
    alloc: Global,
    path: &Path,
    after: &Path,
    count: u32,
    line: &mut Addition,
) -> Result<(), AllocError>
    ensures ok { OnOk result (line.new.added ≡ line.old.added ++ join_with_byte 32 (call_words (ListAfter count path.now after.now))) }
    ensures fits { OnOk result (FitsCall largest (ListAfter count path.now after.now)) }
    ensures before { line.new.before ≡ line.old.before }
{
    push_with_paths(alloc, b"list ", path, after, line)?;
    line.push_with_number(b" ", u64::from(count))
}

fn push_read(
    alloc: Global,
    path: &Path,
    off: u64,
    count: u64,
    line: &mut Addition,
) -> Result<(), AllocError>
    ensures ok { OnOk result (line.new.added ≡ line.old.added ++ join_with_byte 32 (call_words (Read path.now off count))) }
    ensures fits { OnOk result (FitsCall largest (Read path.now off count)) }
    ensures before { line.new.before ≡ line.old.before }
{
    push_with_path(alloc, b"read ", path, line)?;
    line.push_with_number(b" ", off)?;
    line.push_with_number(b" ", count)
}

fn push_write(
    alloc: Global,
    path: &Path,
    off: u64,
    bytes: &[u8],
    line: &mut Addition,
) -> Result<(), AllocError>
    ensures ok { OnOk result (line.new.added ≡ line.old.added ++ join_with_byte 32 (call_words (Write path.now off bytes.now))) }
    ensures fits { OnOk result (FitsCall largest (Write path.now off bytes.now)) }
    ensures before { line.new.before ≡ line.old.before }
{
    push_with_path(alloc, b"write ", path, line)?;
    line.push_with_number(b" ", off)?;
    line.push(b" ")?;
    line.push_hex(alloc, bytes)
}

fn kind_text(kind: Kind) -> &'static [u8]
    ensures { result.now ≡ kind_word kind }
{
    match kind {
        Kind::Dir => b"dir",
        Kind::File => b"file",
    }
}

/// The word of an error, as POSIX.1-2017 names it.
pub fn errno_text(errno: Errno) -> &'static [u8]
    ensures { result.now ≡ errno_word errno }
{
    match errno {
        Errno::Enoent => b"ENOENT",
        Errno::Enotdir => b"ENOTDIR",
        Errno::Eexist => b"EEXIST",
        Errno::Enotempty => b"ENOTEMPTY",
        Errno::Eisdir => b"EISDIR",
        Errno::Einval => b"EINVAL",
        Errno::Ebusy => b"EBUSY",
        Errno::Eperm => b"EPERM",
        Errno::Enospc => b"ENOSPC",
        Errno::Efbig => b"EFBIG",
        Errno::Eoverflow => b"EOVERFLOW",
    }
}

/// Each name after a space.
fn push_names(alloc: Global, names: &NameList, line: &mut Addition) -> Result<(), AllocError>
    ensures ok { OnOk result (line.new.added ≡ line.old.added ++ flat_map (λ n. 32 ∷ escaped n) names.now) }
    ensures fits { OnOk result (AllByRecursion (FitsName largest) names.now) }
    ensures before { line.new.before ≡ line.old.before }
{
    let mut left = names.names();
    'names: while let Some(name) = left.next() {
        line.push(b" ")?;
        line.push_escaped(alloc, name)?;
    }
    Ok(())
}

fn push_reply(alloc: Global, reply: &Reply, line: &mut Addition) -> Result<(), AllocError>
    ensures ok { OnOk result (line.new.added ≡ line.old.added ++ join_with_byte 32 (reply_words reply.now)) }
    ensures fits { OnOk result (FitsReply largest reply.now) }
    ensures before { line.new.before ≡ line.old.before }
{
    match reply {
        Reply::Done => line.push(b"ok"),
        Reply::Stat(kind, size) => {
            line.push(b"stat ")?;
            line.push(kind_text(*kind))?;
            line.push_with_number(b" ", *size)
        }
        Reply::Names(names) => {
            line.push(b"names")?;
            push_names(alloc, names, line)
        }
        Reply::Bytes(bytes) => {
            line.push(b"bytes ")?;
            line.push_hex(alloc, bytes.as_slice())
        }
        Reply::Wrote(size) => line.push_with_number(b"wrote ", *size),
        Reply::Failed(errno) => {
            line.push(b"failed ")?;
            line.push(errno_text(*errno))
        }
    }
}

fn push_entry(alloc: Global, entry: &Entry, line: &mut Addition) -> Result<(), AllocError>
    ensures ok { OnOk result (line.new.added ≡ line.old.added ++ entry_line entry.now) }
    ensures fits { OnOk result (FitsEntry largest entry.now) }
    ensures before { line.new.before ≡ line.old.before }
{
    match entry {
        Entry::Begin(call_no, seat, call) => {
            line.push_with_number(b"begin ", call_no.get())?;
            line.push_with_number(b" ", seat.get())?;
            line.push(b" ")?;
            push_call(alloc, call, line)?;
        }
        Entry::Commit(call_no) => {
            line.push_with_number(b"commit ", call_no.get())?;
        }
        Entry::Return(call_no, reply) => {
            line.push_with_number(b"return ", call_no.get())?;
            line.push(b" ")?;
            push_reply(alloc, reply, line)?;
        }
    }
    line.push(b"\n")
}

/// Appends the line of an entry, which fits the limits of the third version: it is read back as the same entry by
/// these, and where it fits those of an earlier one, by them too. An `Err`, which is out of memory, leaves the text as it was.
pub fn write_entry(alloc: Global, entry: &Entry, text: &mut Vec<u8>) -> Result<(), AllocError>
    ensures ok { OnOk result (text.new.items ≡ text.old.items ++ entry_line entry.now) }
    ensures err { OnErr result (text.new.items ≡ text.old.items) }
    ensures fits { OnOk result (FitsEntry largest entry.now) }
{
    let mut line = Addition::new(mem::replace(text, Vec::new(alloc)));
    let added = push_entry(alloc, entry, &mut line);
    put_back(added, line, text)
}

/// Appends the text of a call: its words with a space between, as a line of a script has them, and no line feed. An `Err`,
/// which is out of memory, leaves the text as it was.
pub fn write_call(alloc: Global, call: &Call, text: &mut Vec<u8>) -> Result<(), AllocError>
    ensures ok { OnOk result (text.new.items ≡ text.old.items ++ join_with_byte 32 (call_words call.now)) }
    ensures err { OnErr result (text.new.items ≡ text.old.items) }
{
    let mut line = Addition::new(mem::replace(text, Vec::new(alloc)));
    let added = push_call(alloc, call, &mut line);
    put_back(added, line, text)
}

/// Appends the text of a reply: its words with a space between, as the line of its return has them after the call's
/// number, and no line feed. An `Err`, which is out of memory, leaves the text as it was.
pub fn write_reply(alloc: Global, reply: &Reply, text: &mut Vec<u8>) -> Result<(), AllocError>
    ensures ok { OnOk result (text.new.items ≡ text.old.items ++ join_with_byte 32 (reply_words reply.now)) }
    ensures err { OnErr result (text.new.items ≡ text.old.items) }
{
    let mut line = Addition::new(mem::replace(text, Vec::new(alloc)));
    let added = push_reply(alloc, reply, &mut line);
    put_back(added, line, text)
}
