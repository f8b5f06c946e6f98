//! Ways read back from the commits that they share.

ghost use Rattle.std.specs.Prelude.{◌≡◌, ◌+◌, ◌<◌, ◌∷◌, [], List, reverse, IfOk, IfSome, IfNone};
ghost use Rattle.fs_linearize_configurations.specs.code.Ways.{GoesBack, IsLast};
ghost use Rattle.fs_linearize_configurations.specs.declared.steps.Step.{Step as Value};
ghost use Rattle.fs_linearize_configurations.specs.declared.steps.Link.{Link as Shared};

use crate::steps::{Link, Step};
use std::alloc::{AllocError, Global};

/// The commit that is the last step of a way, if it is no entry that passed.
fn last_commit(links: &[Link], at: usize, last: usize) -> Option<Link>
    ensures some { IfSome result (λ link. IsLast links.now at last link) }
    ensures none { IfNone result ((link : Shared) → IsLast links.now at last link → ⊥) }
{
    if last == 0 {
        return None;
    }
    let link = links.get(last - 1)?;
    if link.at != at {
        return None;
    }
    if link.before >= last {
        return None;
    }
    Some(*link)
}

/// The last step of a way, with the place and the last commit of the way before it.
fn last_step(links: &[Link], at: usize, last: usize) -> Option<(Step, usize, usize)>
    ensures fewer { IfSome result (λ s. s.1 + s.2 < at + last) }
    ensures some { IfSome result (λ s. (steps : List Value) → GoesBack links.now at last steps → (rest : List Value) × (steps ≡ s.0 ∷ rest) × GoesBack links.now s.1 s.2 rest) }
    ensures none { IfNone result ((steps : List Value) → GoesBack links.now at last steps → steps ≡ []) }
{
    if let Some(link) = last_commit(links, at, last) {
        return Some((Step::Commits(link.number), at, link.before));
    }
    if at == 0 {
        return None;
    }
    Some((Step::Passes, at - 1, last))
}

/// The steps of the way to a configuration, which goes back from its last commit.
pub fn steps_to(
    alloc: Global,
    links: &[Link],
    at: usize,
    last: usize,
) -> Result<Vec<Step>, AllocError>
    ensures { IfOk result (λ way. (steps : List Value) → GoesBack links.now at last steps → way.items ≡ reverse steps) }
{
    let mut way = Vec::new(alloc);
    let mut here = at;
    let mut commit = last;
    while let Some((step, before, earlier)) = last_step(links, here, commit) {
        way.push(step)?;
        here = before;
        commit = earlier;
    }
    way.reverse();
    Ok(way)
}
