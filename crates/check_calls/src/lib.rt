//! Checks public calls whose answers no program and no call of the library for C shows. `names` has the order of names, and how two paths
//! relate. `words` compares calls and replies, and looks at what texts are made of. `walks` has where a walk and the heads of a rename
//! are, and a call that is cancelled. `cores` has a core, its nodes, holders, commits and parts, and `starts` the rows at which a core
//! begins. `parts` has parts of the runners and the fault that no run ends with, and `limits` has files under both sets of limits.
//!
//! The lines of the folder `calls/` are written with their answers, as worked tables; the other modules compare. `spelled` reads the calls
//! and the replies that texts spell.
#![tactic(auto)]

mod cores;
mod limits;
mod names;
mod parts;
mod spelled;
mod starts;
mod transcript;
mod walks;
mod words;

use anyhow::Result;
use std::rt::Files;
use transcript::go_through;

/// Goes through the files, and compares the rest.
pub fn run<R: Files + AllocGlobal + Print>(rt: &R) -> Result<()> {
    let alloc = rt.alloc();
    go_through(rt, "calls/names")?;
    go_through(rt, "calls/words")?;
    walks::compare(alloc)?;
    cores::compare(alloc)?;
    starts::compare(alloc)?;
    parts::compare(alloc)?;
    limits::compare(alloc)?;
    println!(rt;
        "walks, a core, parts of the runners, rows of trees, limits of files: as they should be"
    )?;
    Ok(())
}
