//! Where a walk and the heads of a rename are after each step, and a call that begins and is cancelled.

ghost use Rattle.std.specs.Prelude.{◌≡◌, ◌≤◌, IfSome, None};
ghost use Rattle.fs_names.specs.declared.limits.TheConstants.{NODE_LIMIT};
ghost use Rattle.fs_machine.specs.OpValues.{SpareIf};
ghost use Rattle.fs_nodes.specs.Stores.{graph_of};

use anyhow::{Result, ensure};
use fs_calls::Call;
use fs_names::{Limits, Path};
use fs_nodes::{NoNode, NodeNo, Store};
use fs_ops::Op;
use fs_walk::{Fork, Head, Side, Walk};
use std::alloc::Global;

/// Where a walk is, which node it left, and whether it may take a node.
fn place(walk: &Walk) -> (Option<NodeNo>, Option<NodeNo>, bool) {
    (walk.node(), walk.behind(), walk.may_take())
}

/// A walk along one name takes the root and the node of the name, and lets go of the node that it left, and of that
/// alone.
fn compare_walk() -> Result<()> {
    let (root, node) = (NodeNo::new(0), NodeNo::new(7));
    let mut walk = Walk::new(1);
    ensure!(walk.names() == 1, "one name");
    ensure!(place(&walk) == (None, None, true), "a new walk");
    walk.took(root);
    ensure!(place(&walk) == (Some(root), None, true), "at the root");
    walk.took(node);
    ensure!(place(&walk) == (Some(node), Some(root), false), "there");
    walk.let_go(node);
    ensure!(place(&walk) == (Some(node), Some(root), false), "still");
    walk.let_go(root);
    ensure!(place(&walk) == (Some(node), None, false), "nothing behind");
    Ok(())
}

/// Where the heads of a fork are, and which node they left.
fn heads(fork: &Fork) -> (Head, Head, Option<NodeNo>) {
    (fork.source(), fork.dest(), fork.behind())
}

/// A head at a node, which is so many names on its way.
fn head(walked: usize, node: NodeNo) -> Head {
    Head { walked, node }
}

/// The source head of a fork walks two names, and the other one none.
fn compare_fork(source: &Path, dest: &Path) -> Result<()> {
    let [a, b, c] = [NodeNo::new(1), NodeNo::new(2), NodeNo::new(3)];
    let mut fork = Fork::new(a, 1);
    ensure!(fork.node() == a && fork.names() == 1, "a fork");
    ensure!(heads(&fork) == (head(0, a), head(0, a), None), "new heads");
    ensure!(!fork.has_set_out() && fork.source().held().is_none(), "new");
    ensure!(fork.took(source, dest, b), "a name");
    ensure!(heads(&fork) == (head(1, b), head(0, a), None), "a name on");
    ensure!(fork.has_set_out() && fork.source().held() == Some(b), "out");
    ensure!(fork.walking(source, dest) == Some(Side::Source), "one more");
    ensure!(fork.took(source, dest, c), "the other name");
    ensure!(heads(&fork) == (head(2, c), head(0, a), Some(b)), "there");
    ensure!(fork.walking(source, dest).is_none(), "both there");
    fork.let_go(b);
    ensure!(heads(&fork) == (head(2, c), head(0, a), None), "let go");
    Ok(())
}

/// The number that a call which has begun reserved: nothing else has it, and the call is nowhere yet.
fn reserved(op: &Op, store: &Store) -> Option<NodeNo>
    ensures spare { IfSome result (λ _. SpareIf (graph_of store.now) op.now.reserved) }
    ensures start { IfSome result (λ _. op.now.holdings ≡ None) }
{
    let node = op.reserved()?;
    let is_loose = store.is_used(node) && store.parent(node).is_none();
    if !(is_loose && store.entries(node) == 0 && node.get() != 0) || op.position().is_some() {
        return None;
    }
    Some(node)
}

/// Whether a call that has begun reserved a number, which is free again once it is cancelled.
fn gives_back(op: Op, store: &mut Store) -> bool {
    let Some(node) = reserved(&op, store) else {
        return false;
    };
    op.cancel(store);
    !store.is_used(node)
}

/// What comes of a call that begins on a store and is cancelled: whether it gave its number back.
fn cancelled(alloc: Global, store: &mut Store, call: &Call) -> Result<bool, NoNode> {
    match Op::begin(alloc, call, store, Limits::V2) {
        Ok(op) => Ok(gives_back(op, store)),
        Err(why) => Err(why),
    }
}

/// The same on a new store for so many nodes.
fn cancelled_of(alloc: Global, nodes: usize, call: &Call) -> Result<Result<bool, NoNode>>
    requires least { 1 ≤ nodes }
    requires most { nodes ≤ NODE_LIMIT }
{
    let mut store = Store::new(alloc, nodes)?;
    Ok(cancelled(alloc, &mut store, call))
}

/// A mkdir that begins where a number is left gives it back when it is cancelled; none begins where the root has the last one.
fn compare_cancel(alloc: Global, mkdir: &Call) -> Result<()> {
    let given = cancelled_of(alloc, 2, mkdir)?;
    ensure!(given == Ok(true), "a number given back");
    let full = cancelled_of(alloc, 1, mkdir)?;
    ensure!(full == Err(NoNode::Full), "no number where all are in use");
    Ok(())
}

/// The paths of calls that are cancelled: the name of the second one shares its bytes with its copies.
const CANCELLED: [&[u8]; 2] = [
    b"/a",
    b"/mmmmmmmmmmmmmmmmmmmmmmmmmmmmmmmmmmmmmmmmmmmmmmmmmmmmmmmmmmmmmmmmmmmmmm",
];

/// The same of a call on a path.
fn compare_call(alloc: Global, text: &[u8]) -> Result<()> {
    let mkdir = Call::Mkdir(Path::parse_with(alloc, text, Limits::LARGEST)?);
    compare_cancel(alloc, &mkdir)
}

/// All of these.
pub fn compare(alloc: Global) -> Result<()> {
    compare_walk()?;
    for path in CANCELLED {
        compare_call(alloc, path)?;
    }
    let source = Path::parse(alloc, b"/a/b/c/x")?;
    let dest = Path::parse(alloc, b"/a/y")?;
    compare_fork(&source, &dest)
}
