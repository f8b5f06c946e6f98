//! Calls that sessions play on a shared tree, until it is ended.

use fs_calls::Call;
use fs_share::{Answer, AtomFs, Closed, Gate, Named, Session, Tally};
use std::alloc::Global;
use std::sync::Wait;
use std::time::Clock;

/// The answers of a session, in the order of its calls, and its tally.
#[derive(Drop)]
pub struct Played<N: Named> {
    answers: Vec<Answer>,
    tally: Tally<N>,
}

impl<N: Named> Played<N> {
    /// The tally alone.
    pub fn tally(self) -> Tally<N> {
        self.tally
    }
}

/// What each session played; none where it could not.
pub type Sessions<N> = Vec<Option<Played<N>>>;

/// Plays calls, one after the other.
fn play_all<N: Named, R: Wait + Clock, G: Gate>(
    rt: &R,
    alloc: Global,
    session: &mut Session<'_, N>,
    calls: &[Call],
    gate: &G,
    answers: &mut Vec<Answer>,
) -> Option<()> {
    for call in calls {
        let answer = session.call(rt, alloc, call, gate).ok()?;
        answers.push(answer).ok()?;
    }
    Some(())
}

/// The same by a session of its own.
pub fn play<N: Named, R: Wait + Clock, G: Gate>(
    rt: &R,
    alloc: Global,
    fs: &AtomFs<N>,
    calls: &[Call],
    gate: &G,
) -> Option<Played<N>> {
    let mut session = fs.session(rt).ok()?;
    let mut answers = Vec::new(alloc);
    let played = play_all(rt, alloc, &mut session, calls, gate, &mut answers);
    let tally = session.end();
    played?;
    Some(Played { answers, tally })
}

/// What is left of a tree, and what each of its sessions answered.
#[derive(Drop)]
pub struct Ended {
    pub answers: Vec<Vec<Answer>>,
    pub closed: Closed,
}

/// Puts the answers of a session after those of others, and its tally too.
fn add<N: Named>(
    played: Played<N>,
    answers: &mut Vec<Vec<Answer>>,
    tallies: &mut Vec<Tally<N>>,
) -> Option<()> {
    let Played {
        answers: own,
        tally,
    } = played;
    let answered = answers.push(own);
    let tallied = tallies.push(tally);
    answered.ok()?;
    tallied.ok()
}

/// Puts the answers of all sessions into one list, and their tallies into another.
fn add_all<N: Named>(
    sessions: Option<Sessions<N>>,
    answers: &mut Vec<Vec<Answer>>,
    tallies: &mut Vec<Tally<N>>,
) -> Option<()> {
    for played in sessions? {
        add(played?, answers, tallies)?;
    }
    Some(())
}

/// The tallies of all sessions.
pub fn tallies_of<N: Named>(alloc: Global, sessions: Option<Sessions<N>>) -> Option<Vec<Tally<N>>> {
    let mut answers = Vec::new(alloc);
    let mut tallies = Vec::new(alloc);
    add_all(sessions, &mut answers, &mut tallies)?;
    Some(tallies)
}

/// Ends a tree, and answers what all of its sessions answered.
pub fn end<N: Named, R: Wait>(
    rt: &R,
    alloc: Global,
    fs: AtomFs<N>,
    sessions: Option<Sessions<N>>,
) -> Option<Ended> {
    let mut answers = Vec::new(alloc);
    let mut tallies = Vec::new(alloc);
    let added = add_all(sessions, &mut answers, &mut tallies);
    let closed = fs.close(rt, tallies);
    added.map(|()| Ended { answers, closed })
}
