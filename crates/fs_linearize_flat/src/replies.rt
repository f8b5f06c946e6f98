//! The reply of a call without an error.

ghost use Rattle.std.specs.Prelude.{◌≡◌, min, take, IsTrue, IfOk};
ghost use Rattle.std.specs.FinMap.{is_sorted};
ghost use Rattle.fs_names.specs.Names.{names_above};
ghost use Rattle.fs_names.specs.Keys.{key_cmp, last_of};
ghost use Rattle.fs_names.specs.Limits.{read_limit};
ghost use Rattle.fs_calls.specs.Sights.{tree_shapes, names_of};
ghost use Rattle.fs_calls.specs.Rows.{status, node_reply};
ghost use Rattle.fs_calls.specs.Forms as forms;
ghost use Rattle.fs_calls.specs.Outcomes.{success};
ghost use Rattle.fs_linearize_flat.specs.code.Cells.{lent_names};

use crate::cell::Cell;
use crate::keys::names_of;
use crate::searching::find;
use crate::seeing::{content_at, count, names};
use fs_calls::{Bytes, Call, Errno, NameList, Reply};
use fs_linearize_sparse::read;
use fs_memory::Memory;
use fs_names::{Kind, LIST_LIMIT, Limits, Name, NameRoom, Path};
use std::alloc::{AllocError, Global};

/// The kind and the size of what is at a key.
#[tactic(auto, using(crate::proofs::SeenLemmas::status_nothing, crate::proofs::SeenLemmas::status_file, crate::proofs::SeenLemmas::status_dir))]
fn status(cells: &[Cell], key: &[Name]) -> Reply
    requires { IsTrue (is_sorted key_cmp cells.now) }
    ensures { result ≡ status (tree_shapes cells.now key.now) }
{
    let Some(cell) = find(cells, key) else {
        return Reply::Failed(Errno::Enoent);
    };
    match cell.kind() {
        Kind::Dir => Reply::Stat(Kind::Dir, count(cells, key) as u64),
        Kind::File => Reply::Stat(Kind::File, cell.len() as u64),
    }
}

/// The names of the directory at a path; of all else none.
#[tactic(auto, using(crate::proofs::SeenLemmas::names_nowhere, crate::proofs::SeenLemmas::names_file, crate::proofs::SeenLemmas::names_dir))]
fn names_at<'a>(alloc: Global, cells: &'a [Cell], path: &Path) -> Result<Vec<&'a Name>, AllocError>
    requires { IsTrue (is_sorted key_cmp cells.now) }
    ensures { IfOk result (λ names. lent_names names.items ≡ names_of (tree_shapes cells.now path.now)) }
{
    let key = names_of(alloc, path)?;
    let Some(cell) = find(cells, &key) else {
        return Ok(Vec::new(alloc));
    };
    match cell.kind() {
        Kind::Dir => Ok(names(alloc, cells, &key)?),
        Kind::File => Ok(Vec::new(alloc)),
    }
}

/// The names, as a reply has them.
fn listed(alloc: Global, names: &[&Name]) -> Result<NameList, AllocError>
    ensures { IfOk result (λ list. list ≡ lent_names names.now) }
{
    let mut list = NameRoom::new(alloc, &mut Memory::new(), 0)?;
    for name in names {
        list.push(name)?;
    }
    Ok(list.into_list())
}

/// Names of the directory at a path, those above the last name of another one, and no more than a count.
fn piece<'a>(
    alloc: Global,
    cells: &'a [Cell],
    path: &Path,
    after: &Path,
    count: u32,
) -> Result<Vec<&'a Name>, AllocError>
    requires { IsTrue (is_sorted key_cmp cells.now) }
    ensures { IfOk result (λ names. lent_names names.items ≡ take (min count LIST_LIMIT) (names_above (last_of after.now) (names_of (tree_shapes cells.now path.now)))) }
{
    let mut names = names_at(alloc, cells, path)?;
    let bytes = after.last_bytes();
    names.retain(|name| name.is_above(bytes));
    names.truncate((count as usize).min(LIST_LIMIT));
    Ok(names)
}

/// The bytes of the file at a path from an offset on, no more than a count, and no more than a read answers.
#[tactic(auto, using(crate::proofs::SeenLemmas::read_is))]
fn bytes_at(
    alloc: Global,
    cells: &[Cell],
    limits: Limits,
    path: &Path,
    off: u64,
    count: u64,
) -> Result<Reply, AllocError>
    requires { IsTrue (is_sorted key_cmp cells.now) }
    ensures { IfOk result (λ r. r ≡ node_reply (forms.Read (read_limit limits) off count) (tree_shapes cells.now path.now)) }
{
    let key = names_of(alloc, path)?;
    let most = count.min(limits.read() as u64);
    let found = read(alloc, content_at(cells, &key), off as usize, most as usize)?;
    Ok(Reply::Bytes(Bytes::new(found)))
}

/// The reply of a call without an error by these limits.
pub(crate) fn success(
    alloc: Global,
    cells: &[Cell],
    limits: Limits,
    call: &Call,
) -> Result<Reply, AllocError>
    requires { IsTrue (is_sorted key_cmp cells.now) }
    ensures { IfOk result (λ r. r ≡ success limits cells.now call.now) }
{
    match call {
        Call::Mkdir(_) | Call::Mknod(_) | Call::Unlink(_) | Call::Rmdir(_) => Ok(Reply::Done),
        Call::Rename(_, _) | Call::Exchange(_, _) | Call::Truncate(_, _) => Ok(Reply::Done),
        Call::Stat(path) => {
            let key = names_of(alloc, path)?;
            Ok(status(cells, &key))
        }
        Call::Readdir(path) => Ok(Reply::Names(listed(alloc, &names_at(alloc, cells, path)?)?)),
        Call::ListAfter(count, path, after) => {
            let names = piece(alloc, cells, path, after, *count)?;
            Ok(Reply::Names(listed(alloc, &names)?))
        }
        Call::Read(path, off, count) => Ok(bytes_at(alloc, cells, limits, path, *off, *count)?),
        Call::Write(_, _, bytes) => Ok(Reply::Wrote(bytes.as_slice().len() as u64)),
    }
}
