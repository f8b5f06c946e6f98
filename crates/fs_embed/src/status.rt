//! The numbers that a caller in another language is answered by.

ghost use Rattle.std.specs.Prelude.{◌≡◌, ◌<◌, ◌≤◌};
ghost use Rattle.fs_embed.specs.Statuses.{IsReturned, IsRefusal, linux_number, failed_status, fault_status, path_status, refusal_status, begin_status};

use crate::calls::NotBegun;
use fs_calls::Errno;
use fs_core::Refusal;
use fs_names::PathFault;
use fs_text::FaultKind;

/// Done, and all that was asked for is written.
pub const OK: u8 = 0;

/// Done, but the text is longer than the caller's bytes, which are as before. Its length is reported.
pub const TOO_SMALL: u8 = 1;

/// The call returned, but its reply could not be delivered: an allocation for it failed, or it is of another kind.
pub const UNTOLD: u8 = 2;

/// The call is pending, and waits for a node that a call of another seat holds.
pub const WAITS: u8 = 3;

/// The handle is closed. From this number on, below `FAILED`, nothing has changed.
pub const CLOSED: u8 = 4;

/// The handle is open already.
pub const ALREADY_OPEN: u8 = 5;

/// No core has this limit of nodes.
pub const BAD_LIMIT: u8 = 6;

/// An allocation failed.
pub const NO_MEMORY: u8 = 7;

/// There is no such seat.
pub const NO_SEAT: u8 = 8;

/// The seat has a pending call.
pub const SEAT_BUSY: u8 = 9;

/// The call reserves a node number, and all are in use.
pub const FULL: u8 = 10;

/// No call of this number has returned.
pub const NO_REPLY: u8 = 11;

/// A call is pending.
pub const UNDER_WAY: u8 = 12;

/// No limits of names and files have this version, or those of the tree have no such call.
pub const BAD_VERSION: u8 = 13;

/// The first line is another than it has to be. The numbers from here on are faults of what is read.
pub const BAD_HEADER: u8 = 16;

/// A line has a form that no line has at its place, or a request asks for no call.
pub const BAD_LINE: u8 = 17;

/// The name of a thread is none.
pub const BAD_THREAD: u8 = 18;

/// A thread has two blocks.
pub const THREAD_TWICE: u8 = 19;

/// A word, or the bytes of a request, are no path.
pub const BAD_PATH: u8 = 20;

/// A word is no number.
pub const BAD_NUMBER: u8 = 21;

/// A word is no bytes.
pub const BAD_HEX: u8 = 22;

/// A script ends without a line `schedule`.
pub const NO_SCHEDULE: u8 = 23;

/// A word of a schedule is none.
pub const BAD_WORD: u8 = 24;

/// A limit is passed.
pub const TOO_LARGE: u8 = 25;

/// A reply is none.
pub const BAD_REPLY: u8 = 26;

/// The start tree of a journal is none.
pub const BAD_START: u8 = 27;

/// A path does not begin with a slash. The numbers from here to 33 say why bytes are no path: the check of a path alone answers
/// them, and every other function `BAD_PATH`.
pub const PATH_NOT_ABSOLUTE: u8 = 28;

/// A path has a byte zero.
pub const PATH_NUL: u8 = 29;

/// A name of a path has more bytes than the limits allow.
pub const PATH_NAME_TOO_LONG: u8 = 30;

/// A path has more names than the limits allow.
pub const PATH_TOO_MANY_NAMES: u8 = 31;

/// A name of a path is `.` or `..`.
pub const PATH_DOT: u8 = 32;

/// A path has a name, and ends with a slash.
pub const PATH_TRAILING_SLASH: u8 = 33;

/// No call has the number around which is to be drawn.
pub const NO_CALL: u8 = 34;

/// A number or a word that is handed in is none of those that the function takes.
pub const BAD_CHOICE: u8 = 35;

/// The call returned with an error: this and Linux's number of the error.
pub const FAILED: u8 = 128;

/// Linux's number of an error.
fn linux_number(errno: Errno) -> u8
    ensures number { result ≡ linux_number errno }
    ensures small { result < FAILED }
{
    match errno {
        Errno::Enoent => 2,
        Errno::Enotdir => 20,
        Errno::Eexist => 17,
        Errno::Enotempty => 39,
        Errno::Eisdir => 21,
        Errno::Einval => 22,
        Errno::Ebusy => 16,
        Errno::Eperm => 1,
        Errno::Enospc => 28,
        Errno::Efbig => 27,
        Errno::Eoverflow => 75,
    }
}

/// The number of a call that returned with an error.
pub fn failed_status(errno: Errno) -> u8
    ensures number { result ≡ failed_status errno }
    ensures returned { IsReturned result }
{
    FAILED + linux_number(errno)
}

/// The number of a fault of what is read.
pub fn fault_status(kind: FaultKind) -> u8
    ensures number { result ≡ fault_status kind }
    ensures refused { IsRefusal result }
{
    match kind {
        FaultKind::BadHeader => BAD_HEADER,
        FaultKind::BadLine => BAD_LINE,
        FaultKind::BadThread => BAD_THREAD,
        FaultKind::ThreadTwice => THREAD_TWICE,
        FaultKind::BadPath(_) => BAD_PATH,
        FaultKind::BadNumber => BAD_NUMBER,
        FaultKind::BadHex => BAD_HEX,
        FaultKind::NoSchedule => NO_SCHEDULE,
        FaultKind::BadWord => BAD_WORD,
        FaultKind::TooLarge => TOO_LARGE,
        FaultKind::OutOfMemory => NO_MEMORY,
        FaultKind::BadReply => BAD_REPLY,
        FaultKind::BadStart => BAD_START,
    }
}

/// The number of what is wrong with the bytes of a path.
pub fn path_status(fault: PathFault) -> u8
    ensures { result ≡ path_status fault }
{
    match fault {
        PathFault::NotAbsolute => PATH_NOT_ABSOLUTE,
        PathFault::Nul => PATH_NUL,
        PathFault::NameTooLong => PATH_NAME_TOO_LONG,
        PathFault::TooManyNames => PATH_TOO_MANY_NAMES,
        PathFault::Dot => PATH_DOT,
        PathFault::TrailingSlash => PATH_TRAILING_SLASH,
        PathFault::OutOfMemory => NO_MEMORY,
    }
}

fn refusal_status(refusal: Refusal) -> u8
    ensures number { result ≡ refusal_status refusal }
    ensures refused { IsRefusal result }
{
    match refusal {
        Refusal::OutOfMemory => NO_MEMORY,
        Refusal::Full => FULL,
        Refusal::SeatBusy => SEAT_BUSY,
    }
}

/// The number of the reason why a call did not begin.
pub fn begin_status(why: NotBegun) -> u8
    ensures number { result ≡ begin_status why }
    ensures refused { IsRefusal result }
{
    match why {
        NotBegun::NoSeat => NO_SEAT,
        NotBegun::Unread(kind) => fault_status(kind),
        NotBegun::NoSuchCall => BAD_VERSION,
        NotBegun::Refused(refusal) => refusal_status(refusal),
    }
}
