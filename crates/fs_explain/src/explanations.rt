//! What each fault means, and what to write instead: the texts of `atomfs explain`.
//!
//! `docs/FORMATS.md` and `docs/SPECIFICATION.md` have the same in tables, and `tests/documents.py` compares them with what is printed.

ghost use Rattle.std.specs.Prelude.{◌++◌, IfOk, codes};
ghost use Rattle.std.specs.Io.{StartsWith};
ghost use Rattle.fs_verdict.specs.Checks.{kind_word};
ghost use Rattle.fs_explain.specs.Topics.{Explains, ExplainsBoth, history_word, path_word, text_word};

use crate::topic::{HistoryWord, Topic};
use fs_names::PathFault;
use fs_text::FaultKind as TextFault;
use fs_timeline::FaultKind as EntryFault;
use std::alloc::{AllocError, Global};

const BAD_HEADER: &str = "\
BadHeader: the first line is not `atomfs 1`, `2` or `3`, for a journal `atomfs-journal 1`, `2`, `3` or `4`, for a tree `tree`; or the input is empty

In a script, for    atomfs 4
write               atomfs 3
because             there are three versions, and no line precedes theirs

In a journal, for   atomfs 1
write               atomfs-journal 1
because             a script is no journal
";

const BAD_LINE: &str = "\
BadLine: no line has this form at this place: an unknown first word, a wrong number of words, a space too many, a call before the first block

In a script, for    stat /a
write               thread t
because             a call belongs to the thread above it

In a script, for    touch /a
write               mknod /a
because             there are twelve calls (`list` only in version 3), and `touch` is none of them

In a script, for    write /a 68656c6c6f
write               write /a 0 68656c6c6f
because             a write has an offset

In a script, for    rename  /a /b
write               rename /a /b
because             one space parts two words

In a journal, for   begin 1 readdir /
write               begin 1 0 readdir /
because             a begin has a call number and a seat

In a journal, for   commit 1 0
write               commit 1
because             a commit has a call number only
";

const BAD_THREAD: &str = "\
BadThread: a word is no THREAD, the name of a thread (scripts only)

In a script, for    thread T
write               thread t
because             a name has lower case letters, digits and `_`

In a script, for    thread finish
write               thread t
because             `finish` is a word of schedules
";

const THREAD_TWICE: &str = "\
ThreadTwice: the thread has a block already (scripts only)

In a script, for    thread t
write               thread u
because             all calls of a thread are in one block
";

const BAD_PATH: &str = "\
BadPath: a word is no PATH. The second word of the fault says why: `NotAbsolute`, `Nul`, `NameTooLong`, `TooManyNames`, `Dot` or `TrailingSlash`
";

const NOT_ABSOLUTE: &str = "\
NotAbsolute: a path does not begin with a slash, or is empty

In a script, for    stat a
write               stat /a
because             there is no current directory

In a journal, for   begin 1 0 readdir .
write               begin 1 0 readdir /
because             the calls of a journal are those of scripts
";

const NUL: &str = "\
Nul: a path has a byte zero

In a script, for    stat /a%00
write               stat /a%2500
because             no name has a byte zero, and `%25` is a `%`
";

const NAME_TOO_LONG: &str = "\
NameTooLong: a name in a path has more than 32 bytes, in a text of version 2 more than 64, of version 3 more than 255

In a script, for    stat /abcdefghijklmnopqrstuvwxyz0123456
write               stat /abcdefghijklmnopqrstuvwxyz012345
because             a name has at most 32 bytes, in a text of version 2 at most 64, of version 3 at most 255
";

const TOO_MANY_NAMES: &str = "\
TooManyNames: a path has more than 64 names, in a text of version 3 more than 2,048

In a script, for    stat /n/n/n/n/n/n/n/n/n/n/n/n/n/n/n/n/n/n/n/n/n/n/n/n/n/n/n/n/n/n/n/n/n/n/n/n/n/n/n/n/n/n/n/n/n/n/n/n/n/n/n/n/n/n/n/n/n/n/n/n/n/n/n/n/n
write               stat /n/n/n/n/n/n/n/n/n/n/n/n/n/n/n/n/n/n/n/n/n/n/n/n/n/n/n/n/n/n/n/n/n/n/n/n/n/n/n/n/n/n/n/n/n/n/n/n/n/n/n/n/n/n/n/n/n/n/n/n/n/n/n/n
because             a path has at most 64 names, in a text of version 3 at most 2,048
";

const DOT: &str = "\
Dot: a name in a path is `.` or `..`

In a script, for    stat /a/../b
write               stat /b
because             `.` and `..` are no names
";

const TRAILING_SLASH: &str = "\
TrailingSlash: a path has a name, and ends with a slash

In a script, for    mkdir /a/
write               mkdir /a
because             a path ends with a name
";

const BAD_NUMBER: &str = "\
BadNumber: a word is no NUMBER, a decimal number below 2^64, or a list counts 2^32 or more

In a script, for    truncate /a 0x10
write               truncate /a 16
because             numbers are decimal

In a script, for    truncate /a 08
write               truncate /a 8
because             a number has no leading zero

In a journal, for   commit #1
write               commit 1
because             numbers have digits only
";

const BAD_HEX: &str = "\
BadHex: a word is no HEX, pairs of hexadecimal digits or `-`

In a script, for    write /a 0 hello
write               write /a 0 68656c6c6f
because             bytes are pairs of hexadecimal digits

In a script, for    write /a 0 abc
write               write /a 0 0abc
because             a byte has two digits

In a journal, for   return 1 bytes 6
write               return 1 names
because             a byte has two digits
";

const NO_SCHEDULE: &str = "\
NoSchedule: the text ends without a line `schedule` (scripts only)

In a script, for    nothing: the text ends
write               schedule
because             a script without events has an empty schedule
";

const BAD_WORD: &str = "\
BadWord: a schedule word of another form, of an unknown thread, with a number outside 1 to 1,000,000, of a call to which its thread does not come, or after `finish` or `!drawn` (scripts only)

In a script, for    u*9 finish
write               t*9 finish
because             only threads with a block have events

In a script, for    t*0 finish
write               finish
because             a thread has one event or more

In a script, for    finish t*9
write               t*9 finish
because             `finish` is the last word
";

const TOO_LARGE: &str = "\
TooLarge: a limit is exceeded: 16,777,216 bytes of a text, 256 threads, 65,536 calls, 1,000,000 given events or 1,048,576 nodes; in version 3 1,073,741,824 bytes, 4,194,304 calls or 16,777,216 nodes

In a script, for    t*1000000 t*9
write               t*1000000
because             at most 1,000,000 events are given; `finish` is not counted
";

const OUT_OF_MEMORY: &str = "\
OutOfMemory: an allocation failed, inside a path too; the text may be correct: repeat the command where more memory is available
";

const BAD_REPLY: &str = "\
BadReply: what a call returned has no form of a reply, or a word of it is no name (journals only)

In a journal, for   return 1 ..
write               return 1 names
because             a reply begins with `ok`, `stat`, `names`, `bytes`, `wrote` or `failed`

In a journal, for   return 1 names .
write               return 1 names
because             `.` and `..` are no names
";

const BAD_START: &str = "\
BadStart: no start tree has this line at its place, or the text ends within the start tree (journals and trees)

In a journal, for   entries
write               start
because             the start tree precedes the entries

In a journal, for   dir /a
write               dir /
because             the root comes first

In a journal, for   dir /%61
write               dir /a
because             a node has the one line that is written of it

In a journal, for   file /b/f 6869
write               file /a/f 6869
because             a directory precedes its entries

In a journal, for   commit 1
write               entries
because             the entries follow a line `entries`
";

const BEGIN_TWICE: &str = "\
BeginTwice: a call of this number began before

next                atomfs check < FILE
it says             the line of the entry, and the begin before it

next                atomfs draw --around CALL < FILE > run.svg
it shows            the call of the entry, and those that overlap it
";

const SEAT_BUSY: &str = "\
SeatBusy: the seat's last call has not returned

next                atomfs check < FILE
it says             the line of the entry, and the begin of the call that has not returned

next                atomfs draw --around CALL < FILE > run.svg
it shows            the call of the entry, and those that overlap it
";

const COMMIT_UNBEGUN: &str = "\
CommitUnbegun: no call of this number has begun

next                atomfs check < FILE
it says             the line of the entry, and that no call of its number has begun

next                atomfs draw --around CALL < FILE > run.svg
it shows            the call of the entry, and those that overlap it
";

const COMMIT_TWICE: &str = "\
CommitTwice: the call has committed before

next                atomfs check < FILE
it says             the line of the entry, its call, and the commit before it

next                atomfs draw --around CALL < FILE > run.svg
it shows            the call of the entry, and those that overlap it
";

const RETURN_UNCOMMITTED: &str = "\
ReturnUncommitted: the call has not committed, or never began

next                atomfs check < FILE
it says             the line of the entry, and its call

next                atomfs draw --around CALL < FILE > run.svg
it shows            the call of the entry, and those that overlap it
";

const RETURN_TWICE: &str = "\
ReturnTwice: the call has returned before

next                atomfs check < FILE
it says             the line of the entry, its call, and the return before it

next                atomfs draw --around CALL < FILE > run.svg
it shows            the call of the entry, and those that overlap it
";

const WRONG_REPLY: &str = "\
WrongReply: the reply differs from the one that is due: what the sequential tree replies after the calls committed before

next                atomfs check < FILE
it says             the line of the entry, its call, and the reply that is due

next                atomfs draw --around CALL < FILE > run.svg
it shows            the call of the entry, and those that overlap it
";

const RETURN_UNBEGUN: &str = "\
ReturnUnbegun: no call of this number has begun

next                atomfs linearize < FILE
it says             the line of the entry, and that no call of its number has begun
";

const NO_ORDER: &str = "\
none: no journal explains the entries up to that return; one explains those before it

next                atomfs linearize < FILE
it says             the line of the return, its call, and what that could have replied

next                atomfs linearize --front < FILE | atomfs draw > run.svg
it shows            a journal that explains the entries before the return, and the return
";

const UNKNOWN: &str = "\
unknown: `--limit` different configurations were made

next                atomfs linearize --limit 1000000000 < FILE
it makes            as many as can be asked for
";

fn of_path(fault: PathFault) -> &'static str
    ensures { StartsWith result.now (path_word fault ++ codes ": ") }
{
    match fault {
        PathFault::NotAbsolute => NOT_ABSOLUTE,
        PathFault::Nul => NUL,
        PathFault::NameTooLong => NAME_TOO_LONG,
        PathFault::TooManyNames => TOO_MANY_NAMES,
        PathFault::Dot => DOT,
        PathFault::TrailingSlash => TRAILING_SLASH,
        PathFault::OutOfMemory => OUT_OF_MEMORY,
    }
}

fn of_text(fault: TextFault) -> &'static str
    ensures { StartsWith result.now (text_word fault ++ codes ": ") }
{
    match fault {
        TextFault::BadHeader => BAD_HEADER,
        TextFault::BadLine => BAD_LINE,
        TextFault::BadThread => BAD_THREAD,
        TextFault::ThreadTwice => THREAD_TWICE,
        TextFault::BadPath(path) => of_path(path),
        TextFault::BadNumber => BAD_NUMBER,
        TextFault::BadHex => BAD_HEX,
        TextFault::NoSchedule => NO_SCHEDULE,
        TextFault::BadWord => BAD_WORD,
        TextFault::TooLarge => TOO_LARGE,
        TextFault::OutOfMemory => OUT_OF_MEMORY,
        TextFault::BadReply => BAD_REPLY,
        TextFault::BadStart => BAD_START,
    }
}

fn of_entry(fault: EntryFault) -> &'static str
    ensures { StartsWith result.now (kind_word fault ++ codes ": ") }
{
    match fault {
        EntryFault::BeginTwice => BEGIN_TWICE,
        EntryFault::SeatBusy => SEAT_BUSY,
        EntryFault::CommitUnbegun => COMMIT_UNBEGUN,
        EntryFault::CommitTwice => COMMIT_TWICE,
        EntryFault::ReturnUncommitted => RETURN_UNCOMMITTED,
        EntryFault::ReturnTwice => RETURN_TWICE,
        EntryFault::WrongReply => WRONG_REPLY,
    }
}

fn of_history(word: HistoryWord) -> &'static str
    ensures { StartsWith result.now (history_word word ++ codes ": ") }
{
    match word {
        HistoryWord::ReturnUnbegun => RETURN_UNBEGUN,
        HistoryWord::NoOrder => NO_ORDER,
        HistoryWord::Unknown => UNKNOWN,
    }
}

/// What a topic means. The text begins with its word.
pub fn explanation_of(topic: Topic) -> &'static str
    ensures { Explains topic result.now }
{
    match topic {
        Topic::Text(fault) => of_text(fault),
        Topic::Path => BAD_PATH,
        Topic::Entry(fault) => of_entry(fault),
        Topic::History(word) => of_history(word),
    }
}

/// What one topic means, or two with an empty line between. The only error is out of memory.
pub fn explanation(
    alloc: Global,
    first: Topic,
    second: Option<Topic>,
) -> Result<Vec<u8>, AllocError>
    ensures { IfOk result (λ text. ExplainsBoth first second text.items) }
{
    let mut text = Vec::new(alloc);
    text.extend_from_slice(explanation_of(first).as_bytes())?;
    if let Some(second) = second {
        text.push(b'\n')?;
        text.extend_from_slice(explanation_of(second).as_bytes())?;
    }
    Ok(text)
}
