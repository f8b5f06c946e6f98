//! The exports that run calls from their begin to their return.
//!
//! If a call waits for one of another seat, it stays pending, and `atomfs_step` goes on with it.

ghost use Rattle.std.specs.Prelude.{◌≡◌, ◌≢◌, ◌<◌, ◌≤◌, length};
ghost use Rattle.fs_calls.specs.declared.call.Call.TheVariants as calls;
ghost use Rattle.fs_embed.specs.Requests.{asked, call_in, on_path, on_both};
ghost use Rattle.atomfs_c.specs.Exports.{IsLawful, IsSpelled, IsCalled, LeavesText, IsToldText, IsToldStat, IsToldNames, IsToldBytes, IsToldWrote, done_status, to_keep};

use crate::calls::run;
use crate::handles::Handle;
use fs_embed::Request;
use fs_embed::status::{CLOSED, FAILED, OK};
use fs_embed::told::{Stat, tell_bytes, tell_done, tell_names, tell_stat, tell_text, tell_wrote};
use std::alloc::Global;

/// Runs a call that answers no more than that it is done.
fn run_done(alloc: Global, handle: &mut Handle, seat: u64, request: Request, number: &mut u64) -> u8
    ensures called { IsCalled (to_keep handle.old.most) (asked request.entry) seat (λ reply. result ≡ done_status reply) result number.new handle.old.held.core handle.new.held.core }
    ensures unnumbered { CLOSED ≤ result → result < FAILED → number.new ≡ number.old }
    ensures lawful { IsLawful handle.new.held.core }
    ensures spelled { IsSpelled handle.new.held.core }
    ensures keeps { handle.new.most ≡ handle.old.most }
{
    match run(alloc, handle, seat, request, number) {
        Ok(reply) => tell_done(&reply),
        Err(status) => status,
    }
}

/// Makes an empty directory.
#[unsafe(no_mangle)]
pub extern "C" fn atomfs_mkdir(
    alloc: Global,
    handle: &mut Handle,
    seat: u64,
    path: &[u8],
    number: &mut u64,
) -> u8
    ensures called { IsCalled (to_keep handle.old.most) (on_path calls.Mkdir path.now) seat (λ reply. result ≡ done_status reply) result number.new handle.old.held.core handle.new.held.core }
    ensures unnumbered { CLOSED ≤ result → result < FAILED → number.new ≡ number.old }
    ensures lawful { IsLawful handle.new.held.core }
    ensures spelled { IsSpelled handle.new.held.core }
    ensures keeps { handle.new.most ≡ handle.old.most }
{
    run_done(alloc, handle, seat, Request::Mkdir(path), number)
}

/// Makes an empty file.
#[unsafe(no_mangle)]
pub extern "C" fn atomfs_mknod(
    alloc: Global,
    handle: &mut Handle,
    seat: u64,
    path: &[u8],
    number: &mut u64,
) -> u8
    ensures called { IsCalled (to_keep handle.old.most) (on_path calls.Mknod path.now) seat (λ reply. result ≡ done_status reply) result number.new handle.old.held.core handle.new.held.core }
    ensures unnumbered { CLOSED ≤ result → result < FAILED → number.new ≡ number.old }
    ensures lawful { IsLawful handle.new.held.core }
    ensures spelled { IsSpelled handle.new.held.core }
    ensures keeps { handle.new.most ≡ handle.old.most }
{
    run_done(alloc, handle, seat, Request::Mknod(path), number)
}

/// Removes the entry of a file.
#[unsafe(no_mangle)]
pub extern "C" fn atomfs_unlink(
    alloc: Global,
    handle: &mut Handle,
    seat: u64,
    path: &[u8],
    number: &mut u64,
) -> u8
    ensures called { IsCalled (to_keep handle.old.most) (on_path calls.Unlink path.now) seat (λ reply. result ≡ done_status reply) result number.new handle.old.held.core handle.new.held.core }
    ensures unnumbered { CLOSED ≤ result → result < FAILED → number.new ≡ number.old }
    ensures lawful { IsLawful handle.new.held.core }
    ensures spelled { IsSpelled handle.new.held.core }
    ensures keeps { handle.new.most ≡ handle.old.most }
{
    run_done(alloc, handle, seat, Request::Unlink(path), number)
}

/// Removes the entry of an empty directory.
#[unsafe(no_mangle)]
pub extern "C" fn atomfs_rmdir(
    alloc: Global,
    handle: &mut Handle,
    seat: u64,
    path: &[u8],
    number: &mut u64,
) -> u8
    ensures called { IsCalled (to_keep handle.old.most) (on_path calls.Rmdir path.now) seat (λ reply. result ≡ done_status reply) result number.new handle.old.held.core handle.new.held.core }
    ensures unnumbered { CLOSED ≤ result → result < FAILED → number.new ≡ number.old }
    ensures lawful { IsLawful handle.new.held.core }
    ensures spelled { IsSpelled handle.new.held.core }
    ensures keeps { handle.new.most ≡ handle.old.most }
{
    run_done(alloc, handle, seat, Request::Rmdir(path), number)
}

/// Moves what is at a path to another path.
#[unsafe(no_mangle)]
pub extern "C" fn atomfs_rename(
    alloc: Global,
    handle: &mut Handle,
    seat: u64,
    path: &[u8],
    other: &[u8],
    number: &mut u64,
) -> u8
    ensures called { IsCalled (to_keep handle.old.most) (on_both calls.Rename path.now other.now) seat (λ reply. result ≡ done_status reply) result number.new handle.old.held.core handle.new.held.core }
    ensures unnumbered { CLOSED ≤ result → result < FAILED → number.new ≡ number.old }
    ensures lawful { IsLawful handle.new.held.core }
    ensures spelled { IsSpelled handle.new.held.core }
    ensures keeps { handle.new.most ≡ handle.old.most }
{
    run_done(alloc, handle, seat, Request::Rename(path, other), number)
}

/// Lets what is at two paths change places.
#[unsafe(no_mangle)]
pub extern "C" fn atomfs_exchange(
    alloc: Global,
    handle: &mut Handle,
    seat: u64,
    path: &[u8],
    other: &[u8],
    number: &mut u64,
) -> u8
    ensures called { IsCalled (to_keep handle.old.most) (on_both calls.Exchange path.now other.now) seat (λ reply. result ≡ done_status reply) result number.new handle.old.held.core handle.new.held.core }
    ensures unnumbered { CLOSED ≤ result → result < FAILED → number.new ≡ number.old }
    ensures lawful { IsLawful handle.new.held.core }
    ensures spelled { IsSpelled handle.new.held.core }
    ensures keeps { handle.new.most ≡ handle.old.most }
{
    run_done(alloc, handle, seat, Request::Exchange(path, other), number)
}

/// Cuts a file to a size, or adds zeros up to it.
#[unsafe(no_mangle)]
pub extern "C" fn atomfs_truncate(
    alloc: Global,
    handle: &mut Handle,
    seat: u64,
    path: &[u8],
    size: u64,
    number: &mut u64,
) -> u8
    ensures called { IsCalled (to_keep handle.old.most) (on_path (λ p. calls.Truncate p size) path.now) seat (λ reply. result ≡ done_status reply) result number.new handle.old.held.core handle.new.held.core }
    ensures unnumbered { CLOSED ≤ result → result < FAILED → number.new ≡ number.old }
    ensures lawful { IsLawful handle.new.held.core }
    ensures spelled { IsSpelled handle.new.held.core }
    ensures keeps { handle.new.most ≡ handle.old.most }
{
    run_done(alloc, handle, seat, Request::Truncate(path, size), number)
}

/// Reports what is at a path.
#[unsafe(no_mangle)]
pub extern "C" fn atomfs_stat(
    alloc: Global,
    handle: &mut Handle,
    seat: u64,
    path: &[u8],
    stat: &mut Stat,
    number: &mut u64,
) -> u8
    ensures called { IsCalled (to_keep handle.old.most) (on_path calls.Stat path.now) seat (λ reply. IsToldStat reply result stat.new) result number.new handle.old.held.core handle.new.held.core }
    ensures untouched { result ≢ OK → stat.new ≡ stat.old }
    ensures unnumbered { CLOSED ≤ result → result < FAILED → number.new ≡ number.old }
    ensures lawful { IsLawful handle.new.held.core }
    ensures spelled { IsSpelled handle.new.held.core }
    ensures keeps { handle.new.most ≡ handle.old.most }
{
    match run(alloc, handle, seat, Request::Stat(path), number) {
        Ok(reply) => tell_stat(&reply, stat),
        Err(status) => status,
    }
}

/// Writes all names of a directory, a byte 0 after each.
#[unsafe(no_mangle)]
pub extern "C" fn atomfs_readdir(
    alloc: Global,
    handle: &mut Handle,
    seat: u64,
    path: &[u8],
    out: &mut [u8],
    count: &mut usize,
    number: &mut u64,
) -> u8
    ensures called { IsCalled (to_keep handle.old.most) (on_path calls.Readdir path.now) seat (λ reply. IsToldNames reply result count.new out.old out.new) result number.new handle.old.held.core handle.new.held.core }
    ensures untouched { LeavesText result count.old count.new out.old out.new }
    ensures unnumbered { CLOSED ≤ result → result < FAILED → number.new ≡ number.old }
    ensures lawful { IsLawful handle.new.held.core }
    ensures spelled { IsSpelled handle.new.held.core }
    ensures keeps { handle.new.most ≡ handle.old.most }
{
    match run(alloc, handle, seat, Request::Readdir(path), number) {
        Ok(reply) => tell_names(alloc, &reply, out, count),
        Err(status) => status,
    }
}

/// Writes the names of a directory above the last name of a path, no more than so many, a byte 0 after each. Under
/// limits without this call it does not begin.
#[unsafe(no_mangle)]
pub extern "C" fn atomfs_list(
    alloc: Global,
    handle: &mut Handle,
    seat: u64,
    path: &[u8],
    after: &[u8],
    most: u32,
    out: &mut [u8],
    count: &mut usize,
    number: &mut u64,
) -> u8
    ensures called { IsCalled (to_keep handle.old.most) (on_both (calls.ListAfter most) path.now after.now) seat (λ reply. IsToldNames reply result count.new out.old out.new) result number.new handle.old.held.core handle.new.held.core }
    ensures untouched { LeavesText result count.old count.new out.old out.new }
    ensures unnumbered { CLOSED ≤ result → result < FAILED → number.new ≡ number.old }
    ensures lawful { IsLawful handle.new.held.core }
    ensures spelled { IsSpelled handle.new.held.core }
    ensures keeps { handle.new.most ≡ handle.old.most }
{
    match run(
        alloc,
        handle,
        seat,
        Request::ListAfter(path, after, most),
        number,
    ) {
        Ok(reply) => tell_names(alloc, &reply, out, count),
        Err(status) => status,
    }
}

/// Reads as many bytes of a file from an offset on as there is room for.
#[unsafe(no_mangle)]
pub extern "C" fn atomfs_read(
    alloc: Global,
    handle: &mut Handle,
    seat: u64,
    path: &[u8],
    off: u64,
    out: &mut [u8],
    count: &mut usize,
    number: &mut u64,
) -> u8
    ensures called { IsCalled (to_keep handle.old.most) (on_path (λ p. calls.Read p off (length out.old)) path.now) seat (λ reply. IsToldBytes reply result count.new out.old out.new) result number.new handle.old.held.core handle.new.held.core }
    ensures untouched { LeavesText result count.old count.new out.old out.new }
    ensures unnumbered { CLOSED ≤ result → result < FAILED → number.new ≡ number.old }
    ensures lawful { IsLawful handle.new.held.core }
    ensures spelled { IsSpelled handle.new.held.core }
    ensures keeps { handle.new.most ≡ handle.old.most }
{
    match run(
        alloc,
        handle,
        seat,
        Request::Read(path, off, out.len() as u64),
        number,
    ) {
        Ok(reply) => tell_bytes(&reply, out, count),
        Err(status) => status,
    }
}

/// Writes bytes into a file at an offset, and reports how many.
#[unsafe(no_mangle)]
pub extern "C" fn atomfs_write(
    alloc: Global,
    handle: &mut Handle,
    seat: u64,
    path: &[u8],
    off: u64,
    bytes: &[u8],
    wrote: &mut u64,
    number: &mut u64,
) -> u8
    ensures called { IsCalled (to_keep handle.old.most) (on_path (λ p. calls.Write p off bytes.now) path.now) seat (λ reply. IsToldWrote reply result wrote.new) result number.new handle.old.held.core handle.new.held.core }
    ensures untouched { result ≢ OK → wrote.new ≡ wrote.old }
    ensures unnumbered { CLOSED ≤ result → result < FAILED → number.new ≡ number.old }
    ensures lawful { IsLawful handle.new.held.core }
    ensures spelled { IsSpelled handle.new.held.core }
    ensures keeps { handle.new.most ≡ handle.old.most }
{
    match run(
        alloc,
        handle,
        seat,
        Request::Write(path, off, bytes),
        number,
    ) {
        Ok(reply) => tell_wrote(&reply, wrote),
        Err(status) => status,
    }
}

/// Runs the call that a line spells, and writes its reply's text.
#[unsafe(no_mangle)]
pub extern "C" fn atomfs_call(
    alloc: Global,
    handle: &mut Handle,
    seat: u64,
    line: &[u8],
    out: &mut [u8],
    count: &mut usize,
    number: &mut u64,
) -> u8
    ensures called { IsCalled (to_keep handle.old.most) (call_in line.now) seat (λ reply. IsToldText reply result count.new out.old out.new) result number.new handle.old.held.core handle.new.held.core }
    ensures untouched { LeavesText result count.old count.new out.old out.new }
    ensures unnumbered { CLOSED ≤ result → result < FAILED → number.new ≡ number.old }
    ensures lawful { IsLawful handle.new.held.core }
    ensures spelled { IsSpelled handle.new.held.core }
    ensures keeps { handle.new.most ≡ handle.old.most }
{
    match run(alloc, handle, seat, Request::Line(line), number) {
        Ok(reply) => tell_text(alloc, &reply, out, count),
        Err(status) => status,
    }
}
