//! A look at what a path leads to.

ghost use Rattle.std.specs.Prelude.{◌≡◌, IfOk, IfErr};
ghost use Rattle.fs_nodes.specs.Stores as stores;
ghost use Rattle.fs_nodes.specs.Stores.{shape};
ghost use Rattle.fs_embed.specs.Looks.{Leads, IsNoPath};

use fs_core::Core;
use fs_names::Kind;
use fs_nodes::{NodeNo, Store};
use fs_text::FaultKind;
use fs_text::words::path_at;
use std::alloc::Global;

/// The kind of a node, where there is one of this number.
fn kind_at(store: &Store, node: NodeNo) -> Option<Kind>
    ensures { result ≡ stores.kind_of (shape store.now node) }
{
    if store.is_dir(node) {
        return Some(Kind::Dir);
    }
    if store.is_file(node) {
        return Some(Kind::File);
    }
    None
}

/// What the path of a word leads to among the nodes, whoever holds them; `None` if it leads nowhere. No call begins and
/// no entry is made, so it says nothing of the order of the pending calls.
pub fn kind_of(alloc: Global, core: &Core, word: &[u8]) -> Result<Option<Kind>, FaultKind>
    ensures ok { IfOk result (λ kind. Leads core.now word.now kind) }
    ensures err { IfErr result (IsNoPath core.now.start.limits word.now) }
{
    let path = match path_at(alloc, core.start().limits(), word) {
        Ok(path) => path,
        Err(kind) => return Err(kind),
    };
    match core.find_path(&path) {
        Some(node) => Ok(kind_at(core.store(), node)),
        None => Ok(None),
    }
}
