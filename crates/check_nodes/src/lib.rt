//! What is checked of one store. It also has the calls of a store with their conditions asked first, so that drawn calls can be made on
//! it.
//!
//! `calls` has these calls for the store with sibling links and for the one without an index, which `check_stores` compares. `looks`
//! counts how many places look-ups look at. `run` uses a store, files in blocks, sleepers, holders and held nodes as their examples do.
//! `large::run` has directories with far more entries than any limits allow.
#![tactic(auto)]

pub mod blocks;
pub mod calls;
mod examples;
pub mod large;
mod locks;
pub mod looks;
mod sleepers;

use anyhow::Result;
use std::alloc::Global;

/// Uses a store, files in blocks, sleepers, holders and held nodes, and writes what was seen of the last two.
pub fn run(rt: &impl Print, alloc: Global) -> Result<()> {
    examples::use_stores(alloc)?;
    blocks::use_files(alloc)?;
    sleepers::use_sleepers()?;
    locks::use_locks(alloc)?;
    println!(rt;
        "locks: one holder at a time, all calls but the last can hold, nodes in the order taken"
    )?;
    Ok(())
}
