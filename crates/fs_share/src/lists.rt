//! Lists of calls, each on a thread of its own.

ghost use Rattle.std.specs.Prelude.{◌≡◌, ◌^◌, ℕ, length, map, vec_len, sum_by, IfOk, OnOk};
ghost use Rattle.fs_nodes.specs.Graphs.{graph_shapes};
ghost use Rattle.fs_nodes.specs.Stores.{graph_of};
ghost use Rattle.fs_calls.specs.Outcomes.{play};
ghost use Rattle.fs_calls.specs.Starts.{root_start};
ghost use Rattle.fs_calls.specs.Sights.{tree_shapes};
ghost use Rattle.fs_timeline.specs.Timeline.{IsLawful, IsWellFormed, commits};
ghost use Rattle.fs_linearizable.specs.Linearizable.{history, IsLinearizable};
ghost use Rattle.fs_share.specs.Played.{ArePlayed};
ghost use Rattle.fs_share.specs.Returns.{returns};

use crate::gate::Gate;
use crate::played::are_played;
use crate::session::{Session, Tally};
use crate::tree::{AtomFs, Closed};
use fs_calls::Call;
use fs_core::Refusal;
use fs_names::Limits;
use fs_share_observe::{Named, Opened};
use std::alloc::Global;
use std::marker::Brand;
use std::sync::Wait;
use std::sync::ledger::Blank;
use std::thread;
use std::thread::{Promise, PromisedHandle, Scope, Threads};
use std::time::Clock;

/// Why lists were not played to their end. The tree made so far is dropped.
#[derive(Clone, Copy, Debug, PartialEq, Eq)]
pub enum ListsFault {
    /// A worker could not be started. It would come as well if the timeline were not that of the lists, which is not met.
    NoWorker,
    /// A call was refused, or there was no memory for a session or a list of workers.
    Refused(Refusal),
}

/// That a worker played so many calls.
#[derive(Clone, Copy)]
struct Plays(usize);

impl<N: Named> Promise<Result<Tally<N>, Refusal>> for Plays {
    ghost use Rattle.std.specs.Prelude.{◌≡◌, IfOk};

    ghost kept_by = { λ plays played. IfOk played (λ tally. tally.count ≡ plays.0) };
}

type Worker<N> = PromisedHandle<Result<Tally<N>, Refusal>, Plays>;

/// What is answered where memory runs out.
fn out_of_memory() -> ListsFault {
    ListsFault::Refused(Refusal::OutOfMemory)
}

/// Plays a list by a session that has made no call yet, and ends it.
fn play_list<N: Named, R: Wait + Clock, G: Gate>(
    rt: &R,
    alloc: Global,
    mut session: Session<'_, N>,
    list: &[Call],
    gate: &G,
) -> Result<Tally<N>, Refusal>
    ensures { IfOk result (λ tally. tally.count ≡ length list.now) }
{
    if session.count() > 0 {
        return Err(Refusal::SeatBusy);
    }
    for call in list {
        session.call(rt, alloc, call, gate)?;
    }
    Ok(session.end())
}

/// Starts a worker on a list, with a session that is opened before. So the lists have the seats of a new tree in their order.
fn start<'s, E, N: Named + Send + Sync, R: Wait + Clock + Sync, G: Gate + Sync>(
    rt: &'s R,
    alloc: Global,
    scope: &Scope<'s, E>,
    fs: &'s AtomFs<N>,
    list: &'s [Call],
    gate: &'s G,
) -> Result<Worker<N>, ListsFault>
    ensures { IfOk result (λ worker. worker.promise.0 ≡ length list.now) }
{
    let session = fs.session(rt).map_err(|_| out_of_memory())?;
    match scope.spawn_with(
        Plays(list.len()),
        move || play_list(rt, alloc, session, list, gate),
    ) {
        Ok(worker) => Ok(worker),
        Err(_) => Err(ListsFault::NoWorker),
    }
}

/// Starts a worker on each list.
fn start_all<'s, E, N: Named + Send + Sync, R: Wait + Clock + Sync, G: Gate + Sync>(
    rt: &'s R,
    alloc: Global,
    scope: &Scope<'s, E>,
    fs: &'s AtomFs<N>,
    lists: &'s [Vec<Call>],
    gate: &'s G,
) -> Result<Vec<Worker<N>>, ListsFault>
    ensures count { IfOk result (λ workers. vec_len workers ≡ length lists.now) }
    ensures calls { IfOk result (λ workers. sum_by (λ worker. worker.promise.0) workers.items ≡ sum_by vec_len lists.now) }
{
    let mut workers = Vec::new(alloc);
    for list in lists {
        let worker = start(rt, alloc, scope, fs, list.as_slice(), gate)?;
        workers.push(worker).map_err(|_| out_of_memory())?;
    }
    Ok(workers)
}

/// Waits for a worker.
fn join<N: Named, R: Threads>(rt: &R, worker: Worker<N>) -> Result<Tally<N>, ListsFault>
    ensures { IfOk result (λ tally. tally.count ≡ worker.promise.0) }
{
    worker.join(rt).map_err(ListsFault::Refused)
}

/// Waits for each worker.
fn join_all<N: Named, R: Threads>(
    rt: &R,
    alloc: Global,
    workers: Vec<Worker<N>>,
) -> Result<Vec<Tally<N>>, ListsFault>
    ensures count { IfOk result (λ tallies. vec_len tallies ≡ vec_len workers) }
    ensures calls { IfOk result (λ tallies. sum_by (λ tally. tally.count) tallies.items ≡ sum_by (λ worker. worker.promise.0) workers.items) }
{
    let mut tallies = Vec::new(alloc);
    for worker in workers {
        let tally = join(rt, worker)?;
        tallies.push(tally).map_err(|_| out_of_memory())?;
    }
    Ok(tallies)
}

/// Plays each list by a worker of its own.
fn play_lists<N: Named + Send + Sync, R: Threads + Wait + Clock + Sync, G: Gate + Sync>(
    rt: &R,
    alloc: Global,
    fs: &AtomFs<N>,
    lists: &[Vec<Call>],
    gate: &G,
) -> Result<Vec<Tally<N>>, ListsFault>
    ensures count { IfOk result (λ tallies. vec_len tallies ≡ length lists.now) }
    ensures calls { IfOk result (λ tallies. sum_by (λ tally. tally.count) tallies.items ≡ sum_by vec_len lists.now) }
{
    thread::scope(
        thread::scope_env(),
        rt,
        |scope| -> Result<Vec<Tally<N>>, ListsFault>
            ensures count { IfOk result (λ tallies. vec_len tallies ≡ length lists.entry.now) }
            ensures calls { IfOk result (λ tallies. sum_by (λ tally. tally.count) tallies.items ≡ sum_by vec_len lists.entry.now) }
        {
            let workers = start_all(rt, alloc, scope, fs, lists, gate)?;
            join_all(rt, alloc, workers)
        },
    )
}

/// That a closed tree had so many sessions, and that its timeline is that of the lists. Nothing else is met: that a lock keeps
/// what sessions did to the tree is in no clause, so it is compared here.
fn certify(
    alloc: Global,
    lists: &[Vec<Call>],
    workers: usize,
    closed: &Closed,
) -> Result<(), ListsFault>
    ensures sessions { OnOk result (closed.now.sessions ≡ workers) }
    ensures played { OnOk result (IsWellFormed closed.now.timeline.entries → ArePlayed (map (λ calls. calls.items) lists.now) closed.now.timeline.entries) }
{
    if closed.sessions != workers {
        return Err(ListsFault::NoWorker);
    }
    match are_played(alloc, lists, closed.timeline.entries()) {
        Ok(true) => Ok(()),
        Ok(false) => Err(ListsFault::NoWorker),
        Err(_) => Err(out_of_memory()),
    }
}

/// The same on a tree of a name of its own, of these limits.
fn run_named<N: Named + Send + Sync, R: Threads + Wait + Clock + Sync, G: Gate + Sync>(
    rt: &R,
    alloc: Global,
    opened: Opened,
    blank: Blank,
    lists: &[Vec<Call>],
    gate: &G,
    limits: Limits,
) -> Result<Closed, ListsFault>
    requires book { opened ≡ N.book }
    requires name { blank.name ≡ N.name }
    requires parts { blank.parts ≡ N.parts }
    requires all { blank.parts ≡ 2 ^ 63 }
    ensures start { IfOk result (λ closed. closed.start ≡ root_start limits) }
    ensures lawful { IfOk result (λ closed. IsLawful closed.start closed.timeline.entries) }
    ensures linearizable { IfOk result (λ closed. IsLinearizable closed.start (history closed.timeline.entries)) }
    ensures spelled { IfOk result (λ closed. graph_shapes (graph_of closed.store) ≡ tree_shapes (play closed.start (commits closed.timeline.entries))) }
    ensures sessions { IfOk result (λ closed. closed.sessions ≡ length lists.now) }
    ensures played { IfOk result (λ closed. ArePlayed (map (λ calls. calls.items) lists.now) closed.timeline.entries) }
    ensures returns { IfOk result (λ closed. returns closed.timeline.entries ≡ sum_by vec_len lists.now) }
{
    let fs = AtomFs::<N>::open_with(rt, alloc, opened, blank, limits).map_err(|_| out_of_memory())?;
    match play_lists(rt, alloc, &fs, lists, gate) {
        Ok(tallies) => {
            let workers = tallies.len();
            let closed = fs.close(rt, tallies);
            certify(alloc, lists, workers, &closed)?;
            Ok(closed)
        }
        Err(fault) => {
            let _lost = fs.close(rt, Vec::new(alloc));
            Err(fault)
        }
    }
}

/// Plays each list on a new tree of these limits by a worker of its own, with a session of its own, and ends the tree. A list
/// is played from its first call to its last; in which order calls of different lists come is nobody's promise. Each worker
/// has ended when this answers, also where it answers an error; the tree is ended and dropped then.
///
/// At the end the timeline is compared with the lists: on the seat of each list its calls began, in order, and no others, and
/// each returned (`played`). So the nodes spell the tree that the timeline's commits play (`spelled`).
pub fn run_lists_with<R: Threads + Wait + Clock + Sync, G: Gate + Sync>(
    rt: &R,
    alloc: Global,
    lists: &[Vec<Call>],
    gate: &G,
    limits: Limits,
) -> Result<Closed, ListsFault>
    ensures start { IfOk result (λ closed. closed.start ≡ root_start limits) }
    ensures lawful { IfOk result (λ closed. IsLawful closed.start closed.timeline.entries) }
    ensures linearizable { IfOk result (λ closed. IsLinearizable closed.start (history closed.timeline.entries)) }
    ensures spelled { IfOk result (λ closed. graph_shapes (graph_of closed.store) ≡ tree_shapes (play closed.start (commits closed.timeline.entries))) }
    ensures sessions { IfOk result (λ closed. closed.sessions ≡ length lists.now) }
    ensures played { IfOk result (λ closed. ArePlayed (map (λ calls. calls.items) lists.now) closed.timeline.entries) }
    ensures returns { IfOk result (λ closed. returns closed.timeline.entries ≡ sum_by vec_len lists.now) }
{
    run_named::<Brand, R, G>(
        rt,
        alloc,
        Opened::new(),
        Blank::new(1 << 63),
        lists,
        gate,
        limits,
    )
}

/// The same by the limits of the second version.
pub fn run_lists<R: Threads + Wait + Clock + Sync, G: Gate + Sync>(
    rt: &R,
    alloc: Global,
    lists: &[Vec<Call>],
    gate: &G,
) -> Result<Closed, ListsFault>
    ensures start { IfOk result (λ closed. closed.start ≡ root_start Limits.V2) }
    ensures lawful { IfOk result (λ closed. IsLawful closed.start closed.timeline.entries) }
    ensures linearizable { IfOk result (λ closed. IsLinearizable closed.start (history closed.timeline.entries)) }
    ensures spelled { IfOk result (λ closed. graph_shapes (graph_of closed.store) ≡ tree_shapes (play closed.start (commits closed.timeline.entries))) }
    ensures sessions { IfOk result (λ closed. closed.sessions ≡ length lists.now) }
    ensures played { IfOk result (λ closed. ArePlayed (map (λ calls. calls.items) lists.now) closed.timeline.entries) }
    ensures returns { IfOk result (λ closed. returns closed.timeline.entries ≡ sum_by vec_len lists.now) }
{
    run_lists_with(rt, alloc, lists, gate, Limits::V2)
}
