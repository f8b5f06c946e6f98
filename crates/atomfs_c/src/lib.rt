//! AtomFS for C: a static library whose exports carry the linearization theorem.
//!
//! A `Handle` lies in C's memory and owns a boxed core. Each export takes the core out of the handle, calls `fs_embed`, and puts the core
//! back. It returns a status (`fs_embed::status`), and writes what it found into bytes that the caller gives. An export that changes a
//! core says which begins and steps of the machine it made. After it the timeline is lawful (`lawful`), and the nodes spell the tree of
//! its commits if no call is pending (`spelled`). All exports but those that open refuse a closed handle, and the clauses of each say
//! which statuses it returns.
//!
//! Enter at `handles`, `starting`, `calls`, `texts`, `runs` and `tools`, which have the exports; `embed/atomfs.h` declares them for C.
//! Those of `sleepers` are for `embed/shared.c` alone (`embed/asleep.h`). `found`, `pictures` and `schedules` make for `tools` what is
//! found of a history, a picture, and a status that says why nothing is made. In `specs/`, `Handles` says what a handle owns, and
//! `Exports`, `Tools`, `ToolTexts` and `Sleepers` have what the clauses say. `Told` and `Statuses` of `fs_embed` say which number reports
//! what. `docs/EMBEDDING.md` has what a C caller must keep to.
#![tactic(auto)]

mod calls;
mod checkpoint;
mod forgetting;
mod found;
mod handles;
mod held;
mod parts;
mod pictures;
mod replies;
mod runs;
mod schedules;
mod sleepers;
mod starting;
mod texts;
mod tools;
mod typed;
