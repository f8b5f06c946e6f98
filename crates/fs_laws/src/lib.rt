//! What holds of all runs of the machine. The functions have no bodies: the contract of each is a law.
//!
//! `laws::linearization` is the theorem. After every run the timeline is lawful, and if no call is pending, the nodes spell the tree that
//! the commits play. There are also the laws of helping, of progress, and of a call that runs alone. `fs_core` proves that its begins and
//! steps are those of the machine, so each law holds of the running code.
//!
//! `numbers` has the laws which say that the numbers of nodes do not matter, up to a renaming. A begin may reserve any free number. A step
//! of a state with its numbers renamed is a step (`steps_rename`), and two runs of the same seats and calls have one timeline and spell
//! one tree (`twins_are_one`). No number leaks, and a call holds at most four nodes. `fs_sched` proves by them that a script and a
//! schedule have one run text.
//!
//! `endings` says how pending calls come to their ends, whoever makes their steps. If a call goes on with each of some steps, they are no
//! more than the bound on the steps that are left. Some steps always lead to a state with no pending call. So anyone can step a call to its
//! end after its caller has left, and a loop that steps pending calls ends.
//!
//! Enter at the module `laws`. The machine of which all laws speak is that of `fs_machine`. Read in `specs/`: `Laws`, `NumberLaws` and
//! `EndingLaws` (all statements), then by law `Below`, `Settled`, `Progress`, `StepsLeft`, `OneCall`, `Maps`, `Changes`, `Renamings`,
//! `Twins`, `Numbers`, `Holdings`, `Agreement` and `Endings`. `Examples` has worked runs with the answer of each event, in the words of
//! `Events`. `Invariants`, `CallFacts`, `JournalViews` and `Placed` serve the proofs, of which the crate's `README.md` has a map.
#![tactic(auto)]

pub mod endings;
pub mod examples;
pub mod laws;
pub mod numbers;
