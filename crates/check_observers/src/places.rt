//! The places of observers.

use fs_share::{AtomFs, Named, NoPlace, Observer};
use std::alloc::Global;
use std::sync::Wait;

fn add<'a, N: Named, R: Wait>(
    rt: &R,
    fs: &'a AtomFs<N>,
    observers: &mut Vec<Observer<'a, N>>,
    count: u64,
) -> Option<()> {
    for _ in 0..count {
        observers.push(fs.observer(rt).ok()?).ok()?;
    }
    Some(())
}

/// Whether no place is left.
fn is_full<N: Named, R: Wait>(rt: &R, fs: &AtomFs<N>) -> bool {
    matches!(fs.observer(rt), Err(NoPlace))
}

/// Whether there are 64 places, and an observer that is dropped gives its own back.
pub fn sixty_four<N: Named, R: Wait>(rt: &R, alloc: Global, fs: &AtomFs<N>) -> Option<bool> {
    let mut observers = Vec::new(alloc);
    add(rt, fs, &mut observers, 64)?;
    let was_full = is_full(rt, fs);
    drop(observers.pop());
    add(rt, fs, &mut observers, 1)?;
    Some(was_full && is_full(rt, fs))
}
