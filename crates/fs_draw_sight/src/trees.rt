//! The trees before and after commits, as far as they are shown.

use crate::cut::ELLIPSIS;
use crate::data::shown_bytes;
use fs_calls::{Call, Reply};
use fs_names::{Kind, Path, PathFault};
use fs_seq::SeqTree;
use fs_words::Addition;
use std::alloc::{AllocError, Global};

/// After so many commits, and no more, the tree is shown after each.
const MOST_COMMITS: usize = 12;

/// So many entries of a tree are looked at, and so many are shown.
const MOST_SEEN: usize = 200;

const MOST_SHOWN: usize = 12;

/// So many bytes of a file are shown.
const MOST_BYTES: u64 = 12;

/// An entry of a tree: how deep it is, its name, the bytes of a file as they are shown (none of a directory), and whether the last
/// commit put it there, or changed it.
#[derive(Drop)]
pub struct Leaf {
    pub depth: usize,
    pub name: Vec<u8>,
    pub data: Vec<u8>,
    pub is_new: bool,
}

/// When a tree is shown.
#[derive(Clone, Copy, Debug, PartialEq, Eq)]
pub enum When {
    /// Before the first commit that is shown.
    Before,
    /// After the commit of the call at this place among the calls.
    After(usize),
    /// After the last commit that is shown, where not each has its tree.
    End,
}

/// A tree: when it is shown, its first entries, whether more are left out, and whether it is the same as the one before.
#[derive(Drop)]
pub struct Tree {
    pub when: When,
    pub leaves: Vec<Leaf>,
    pub is_cut: bool,
    pub is_same: bool,
}

/// A commit: the place of its call among the calls, the call, and whether the tree after it is shown.
#[derive(Clone, Copy)]
pub struct Commit<'c> {
    pub card: usize,
    pub call: &'c Call,
    pub is_shown: bool,
}

/// An entry that is looked at: its path, how deep it is, and what is shown of its bytes.
#[derive(Drop)]
struct Seen {
    path: Vec<u8>,
    depth: usize,
    size: u64,
    data: Vec<u8>,
    is_new: bool,
}

/// The entries of a tree that are looked at, in order, whether there are more, and whether they are those of the tree before.
#[derive(Drop)]
struct Sight {
    seen: Vec<Seen>,
    is_cut: bool,
    is_same: bool,
}

/// A path of bytes; none where no tree of these limits has one.
fn path_of(alloc: Global, tree: &SeqTree, bytes: &[u8]) -> Result<Option<Path>, AllocError> {
    match Path::parse_with(alloc, bytes, tree.limits()) {
        Ok(path) => Ok(Some(path)),
        Err(PathFault::OutOfMemory) => Err(AllocError),
        Err(_) => Ok(None),
    }
}

/// What is shown of a file's bytes.
fn data_of(alloc: Global, tree: &SeqTree, path: Path, size: u64) -> Result<Vec<u8>, AllocError> {
    let reply = tree.look(alloc, &Call::Read(path, 0, MOST_BYTES))?;
    let Reply::Bytes(bytes) = reply else {
        return Ok(Vec::new(alloc));
    };
    let mut data = shown_bytes(alloc, bytes.as_slice())?;
    if size > MOST_BYTES {
        let _ = data.pop();
        data.push(ELLIPSIS)?;
    }
    Ok(data)
}

/// The path of an entry of a directory.
fn path_below(alloc: Global, dir: &[u8], name: &[u8]) -> Result<Vec<u8>, AllocError> {
    let mut path = Vec::new(alloc);
    if dir.len() > 1 {
        path.extend_from_slice(dir)?;
    }
    path.push(b'/')?;
    path.extend_from_slice(name)?;
    Ok(path)
}

/// Puts the entries of a directory in front of what is still to be looked at.
fn look_below(
    alloc: Global,
    tree: &SeqTree,
    dir: &[u8],
    depth: usize,
    ahead: &mut Vec<(Vec<u8>, usize)>,
) -> Result<(), AllocError> {
    let (Some(path), Some(root)) = (path_of(alloc, tree, dir)?, path_of(alloc, tree, b"/")?) else {
        return Ok(());
    };
    let reply = tree.look(alloc, &Call::ListAfter(MOST_SEEN as u32, path, root))?;
    let Reply::Names(names) = reply else {
        return Ok(());
    };
    let mut below = Vec::new(alloc);
    let mut left = names.names();
    for _ in 0..MOST_SEEN {
        let Some(name) = left.next() else {
            break;
        };
        below.push((path_below(alloc, dir, name)?, depth))?;
    }
    for _ in 0..below.len() {
        if let Some(one) = below.pop() {
            ahead.push(one)?;
        }
    }
    Ok(())
}

/// Looks at an entry, and puts what is below it in front of what is still to be looked at.
fn look_at(
    alloc: Global,
    tree: &SeqTree,
    bytes: Vec<u8>,
    depth: usize,
    ahead: &mut Vec<(Vec<u8>, usize)>,
) -> Result<Option<Seen>, AllocError> {
    let Some(path) = path_of(alloc, tree, bytes.as_slice())? else {
        return Ok(None);
    };
    let reply = tree.look(alloc, &Call::Stat(path.copy()?))?;
    let (size, data) = match reply {
        Reply::Stat(Kind::File, size) => (size, data_of(alloc, tree, path, size)?),
        Reply::Stat(Kind::Dir, _) => {
            look_below(
                alloc,
                tree,
                bytes.as_slice(),
                depth.saturating_add(1),
                ahead,
            )?;
            (0, Vec::new(alloc))
        }
        _ => return Ok(None),
    };
    Ok(Some(Seen {
        path: bytes,
        depth,
        size,
        data,
        is_new: false,
    }))
}

/// The first entries of a tree.
fn sight_of(alloc: Global, tree: &SeqTree) -> Result<Sight, AllocError> {
    let mut ahead = Vec::new(alloc);
    ahead.push((Vec::from_slice(alloc, b"/")?, 0usize))?;
    let mut seen = Vec::new(alloc);
    for _ in 0..MOST_SEEN {
        let Some((path, depth)) = ahead.pop() else {
            break;
        };
        if let Some(one) = look_at(alloc, tree, path, depth, &mut ahead)? {
            seen.push(one)?;
        }
    }
    Ok(Sight {
        seen,
        is_cut: !ahead.is_empty(),
        is_same: false,
    })
}

/// Whether an entry stood there before, and was the same.
fn was_there(before: &[Seen], one: &Seen) -> bool {
    before.iter().any(|old| {
        old.size == one.size
            && old.path.as_slice() == one.path.as_slice()
            && old.data.as_slice() == one.data.as_slice()
    })
}

/// Notes which entries are new.
fn note_new(before: &[Seen], now: &mut Sight) {
    let mut is_same = before.len() == now.seen.len();
    for one in now.seen.iter_mut() {
        one.is_new = !was_there(before, one);
        is_same = is_same && !one.is_new;
    }
    now.is_same = is_same;
}

/// Which entries are new, or are directories above one that is.
fn changed(alloc: Global, seen: &[Seen]) -> Result<Vec<bool>, AllocError> {
    let mut wanted = Vec::new(alloc);
    for one in seen {
        wanted.push(one.is_new)?;
    }
    let mut above = 0usize;
    for i in (0..seen.len()).rev() {
        if seen[i].is_new || seen[i].depth < above {
            above = seen[i].depth;
            if let Some(slot) = wanted.get_mut(i) {
                *slot = true;
            }
        }
    }
    Ok(wanted)
}

/// Which entries are shown: the first of those that changed, and where they leave room the first others.
fn choose(alloc: Global, seen: &[Seen]) -> Result<Vec<bool>, AllocError> {
    let mut chosen = changed(alloc, seen)?;
    let mut left = MOST_SHOWN;
    for slot in chosen.iter_mut() {
        *slot = *slot && left > 0;
        if *slot {
            left -= 1;
        }
    }
    for slot in chosen.iter_mut() {
        if !*slot && left > 0 {
            *slot = true;
            left -= 1;
        }
    }
    Ok(chosen)
}

/// The last name of a path, as a script has it.
fn name_of(alloc: Global, path: &[u8]) -> Result<Vec<u8>, AllocError> {
    if path.len() <= 1 {
        return Vec::from_slice(alloc, path);
    }
    let mut from = 0usize;
    for at in 0..path.len() {
        if path[at] == b'/' {
            from = at;
        }
    }
    let mut name = Addition::new(Vec::new(alloc));
    if let Some(last) = path.get(from.saturating_add(1)..) {
        name.push_escaped(alloc, last)?;
    }
    Ok(name.kept())
}

/// What is shown of a tree.
fn tree_of(alloc: Global, sight: &Sight, when: When) -> Result<Tree, AllocError> {
    let chosen = choose(alloc, sight.seen.as_slice())?;
    let mut leaves = Vec::new(alloc);
    let mut at = 0usize;
    for one in &sight.seen {
        if chosen.get(at) == Some(&true) {
            leaves.push(Leaf {
                depth: one.depth,
                name: name_of(alloc, one.path.as_slice())?,
                data: Vec::from_slice(alloc, one.data.as_slice())?,
                is_new: one.is_new,
            })?;
        }
        at = at.saturating_add(1);
    }
    Ok(Tree {
        when,
        is_cut: sight.is_cut || leaves.len() < sight.seen.len(),
        is_same: sight.is_same,
        leaves,
    })
}

/// How many of these commits are shown.
fn shown_in(commits: &[Commit<'_>]) -> usize {
    let mut shown = 0usize;
    for commit in commits {
        if commit.is_shown {
            shown = shown.saturating_add(1);
        }
    }
    shown
}

/// The trees so far, and the last of them as it was looked at; none before the first.
#[derive(Drop)]
struct Strip {
    alloc: Global,
    trees: Vec<Tree>,
    last: Option<Sight>,
}

impl Strip {
    /// Adds a tree. What is new in it is new since the last one.
    fn push(&mut self, tree: &SeqTree, when: When) -> Result<(), AllocError> {
        let mut now = sight_of(self.alloc, tree)?;
        if let Some(before) = &self.last {
            note_new(before.seen.as_slice(), &mut now);
        }
        self.trees.push(tree_of(self.alloc, &now, when)?)?;
        self.last = Some(now);
        Ok(())
    }
}

/// The tree before the first of these commits that is shown, and after each that is. If they are too many or not each is to be shown,
/// the second tree is that after the last of them. No trees if no commit is shown.
pub fn trees_of(
    alloc: Global,
    mut tree: SeqTree,
    commits: &[Commit<'_>],
    each: bool,
) -> Result<Vec<Tree>, AllocError> {
    let mut left = shown_in(commits);
    let each = each && left <= MOST_COMMITS;
    let mut strip = Strip {
        alloc,
        trees: Vec::new(alloc),
        last: None,
    };
    for commit in commits {
        if left == 0 {
            break;
        }
        if commit.is_shown && strip.last.is_none() {
            strip.push(&tree, When::Before)?;
        }
        let _ = tree.apply(alloc, commit.call)?;
        if commit.is_shown {
            left = left.saturating_sub(1);
            if each || left == 0 {
                strip.push(
                    &tree,
                    if each {
                        When::After(commit.card)
                    } else {
                        When::End
                    },
                )?;
            }
        }
    }
    Ok(strip.trees)
}
