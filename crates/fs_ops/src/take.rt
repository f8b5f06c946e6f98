//! A call takes a node.

ghost use Rattle.std.specs.Prelude.{◌≡◌, ◌≤◌, ℕ, Some, None, cond, length};
ghost use Rattle.fs_names.specs.declared.limits.TheConstants.{PATH_LIMIT};
ghost use Rattle.fs_names.specs.Keys.{parent_of};
ghost use Rattle.fs_names.specs.Parts.{common};
ghost use Rattle.fs_names.specs.declared.limits.Limits.{Limits};
ghost use Rattle.fs_names.specs.declared.limits.Limits.TheVariants.{V1};
ghost use Rattle.fs_calls.specs.code.Targets.{form_of};
ghost use Rattle.fs_calls.specs.Forms as forms;
ghost use Rattle.fs_calls.specs.Forms.{PairCall};
ghost use Rattle.fs_walk.specs.Ways.{fork_took, has_arrived};
ghost use Rattle.fs_machine.specs.Moves.{target};
ghost use Rattle.fs_ops.specs.OpValue.{Forks};
ghost use Rattle.fs_ops.specs.code.TakeAndLetGo.{TakesTo};
ghost use Rattle.fs_machine.specs.OpValues.{IsTook};

use crate::op::Op;
use crate::stand::Stand;
use fs_calls::Target;
use fs_names::Path;
use fs_nodes::NodeNo;
use fs_walk::Fork;

/// A head takes a node; where both have arrived, it is the victim of a rename.
fn heads_took(
    source: &Path,
    dest: &Path,
    heads: &mut Fork,
    victim: &mut Option<NodeNo>,
    node: NodeNo,
)
    ensures heads { heads.new ≡ fork_took source.now dest.now heads.old node }
    ensures victim { victim.new ≡ cond (has_arrived source.now dest.now heads.old) (Some node) victim.old }
{
    if !heads.took(source, dest, node) {
        *victim = Some(node);
    }
}

/// A call on two entries at its common directory takes a node. Which of them it is, no take asks.
fn pair_took(source: &Path, dest: &Path, stand: &mut Stand, node: NodeNo)
    requires names { stand.old.walk.names ≡ length (common (parent_of source.now) (parent_of dest.now)) }
    requires arrived { stand.old.walk.walked ≡ stand.old.walk.names }
    requires forks { (c : PairCall) → Forks (forms.AtPair c source.now dest.now) stand.old.walk stand.old.fork }
    ensures walk { stand.new.walk ≡ stand.old.walk }
    ensures forks { (c : PairCall) → Forks (forms.AtPair c source.now dest.now) stand.old.walk stand.new.fork }
    ensures stands { (c : PairCall) (at : ℕ) → stand.old.walk.node ≡ Some at → TakesTo (forms.AtPair c source.now dest.now) stand.old.walk at node stand.old.fork stand.old.victim stand.new.fork stand.new.victim }
{
    if let Some(at) = stand.walk.node() {
        match &mut stand.fork {
            Some(heads) => heads_took(source, dest, heads, &mut stand.victim, node),
            None => {
                let mut heads = Fork::new(at, stand.walk.names());
                heads_took(source, dest, &mut heads, &mut stand.victim, node);
                if heads.has_set_out() {
                    stand.fork = Some(heads);
                }
            }
        }
    }
}

/// A call at its target takes a node: one on two entries with one of its heads, or else the victim.
#[inline(never)]
fn took_at_target(aim: Target<'_>, stand: &mut Stand, node: NodeNo)
    requires names { stand.old.walk.names ≡ length (target (form_of V1 aim)) }
    requires arrived { stand.old.walk.walked ≡ stand.old.walk.names }
    requires forks { Forks (form_of V1 aim) stand.old.walk stand.old.fork }
    ensures walk { stand.new.walk ≡ stand.old.walk }
    ensures forks { (limits : Limits) → Forks (form_of limits aim.entry) stand.old.walk stand.new.fork }
    ensures stands { (limits : Limits) (at : ℕ) → stand.old.walk.node ≡ Some at → TakesTo (form_of limits aim.entry) stand.old.walk at node stand.old.fork stand.old.victim stand.new.fork stand.new.victim }
{
    match aim {
        Target::Node(_, _) => {}
        Target::Entry(_, _) => {
            stand.victim = Some(node);
        }
        Target::Pair(_, source, dest) => pair_took(source, dest, stand, node),
    }
}

impl Op {
    /// It has taken a node: a step of its walk, of a head, or the victim. A call whose reply is fixed takes none.
    pub fn took(&mut self, node: NodeNo)
        requires { self.old.reply ≡ None }
        ensures took { IsTook self.old node self.new }
        ensures limits { self.new.limits ≡ self.old.limits }
    {
        if self.stand.walk.may_take() {
            self.stand.walk.took(node);
            self.stand.fork = None;
            self.stand.victim = None;
        } else {
            took_at_target(self.call.target(), &mut self.stand, node);
        }
    }
}
