//! The scene of a script's run.

use crate::labels::{last_name, push_who};
use crate::overlap::{cut_to, kept_in};
use crate::scene::{Card, Mark, Reported, Scene, What, short};
use fs_calls::Reply;
use fs_draw_sight::{Commit, Text, Tree, note_alike, trees_of};
use fs_script::Script;
use fs_seq::SeqTree;
use fs_trace_story::{CallPlace, Deed, Line, Page, Story};
use std::alloc::{AllocError, Global};
use std::collections::BTreeMap;

/// How far a run is told: how many calls began, how many of them before the last checkpoint, and how many commits there were
/// behind that.
#[derive(Clone, Copy)]
struct SoFar {
    begun: u32,
    before: u32,
    commits: u64,
}

impl SoFar {
    /// The place of a call among the calls, by its number, which counts from 1 behind each checkpoint.
    fn card_of(&self, number: u64) -> u32 {
        self.before
            .saturating_add(short(number.saturating_sub(1) as usize))
    }

    /// The numbers of calls and of commits begin again.
    fn checkpoint(&mut self) {
        self.before = self.begun;
        self.commits = 0;
    }

    /// A call does this.
    fn note(&mut self, what: What) {
        match what {
            What::Begin => self.begun = self.begun.saturating_add(1),
            What::Commit | What::Help(_) => self.commits = self.commits.saturating_add(1),
            _ => {}
        }
    }
}

/// What a line of a story tells of its call, where a wait is for a call whose word stands at this place; none of an idle turn and of a
/// checkpoint.
fn what_of(line: &Line, so_far: &SoFar, holder: u32) -> Option<What> {
    Some(match line.deed {
        Deed::Idles | Deed::Checkpoint => return None,
        Deed::Begins => What::Begin,
        Deed::Takes(node) => What::Take(short(node.get())),
        Deed::Waits(node, _) => What::Wait(short(node.get()), holder),
        Deed::LetsGo(node) => What::LetGo(short(node.get())),
        Deed::Helps(helped) => What::Help(so_far.card_of(helped.get())),
        Deed::Commits => What::Commit,
        Deed::CarriesOut => What::Carry,
        Deed::Returns => What::Return,
    })
}

/// The last name of the node that a call takes or waits for; no bytes where a line tells of neither.
fn name_of<'s>(line: &Line, words: &'s [u8]) -> &'s [u8] {
    match words.get(line.path.from..line.path.end) {
        Some(path) => last_name(path),
        None => &[],
    }
}

/// The names of the threads.
fn lanes_of(alloc: Global, script: &Script) -> Result<Vec<Vec<u8>>, AllocError> {
    let mut lanes = Vec::new(alloc);
    for seat in 0..script.names.len() {
        if let Some(name) = script.names.name(seat) {
            lanes.push(Vec::from_slice(alloc, name)?)?;
        }
    }
    Ok(lanes)
}

/// The scene of a run so far, of which the calls have no words yet; where the last name of each node stands among the names, and the
/// word of each call that others wait for; and how many calls began in each lane.
#[derive(Drop)]
pub struct Strip {
    alloc: Global,
    scene: Scene,
    places: BTreeMap<u32, u32>,
    holders: BTreeMap<u32, u32>,
    begun: Vec<u64>,
    so_far: SoFar,
}

impl Strip {
    /// Before the first moment of a run of a script.
    pub fn new(alloc: Global, script: &Script) -> Result<Strip, AllocError> {
        let lanes = lanes_of(alloc, script)?;
        let mut begun = Vec::new(alloc);
        for _ in &lanes {
            begun.push(0)?;
        }
        Ok(Strip {
            alloc,
            scene: Scene {
                lanes,
                calls: 0,
                cards: Vec::new(alloc),
                marks: Vec::new(alloc),
                names: Vec::new(alloc),
                checkpoints: Vec::new(alloc),
                trees: Vec::new(alloc),
                fault: None,
                is_run: true,
                folds: false,
                around: None,
            },
            places: BTreeMap::new(alloc),
            holders: BTreeMap::new(alloc),
            begun,
            so_far: SoFar {
                begun: 0,
                before: 0,
                commits: 0,
            },
        })
    }

    /// The place of the next call of a lane among the calls of that.
    fn next_turn(&mut self, lane: usize) -> u64 {
        let Some(begun) = self.begun.get_mut(lane) else {
            return 0;
        };
        *begun = begun.saturating_add(1);
        *begun
    }

    /// The word of a call, by its place among the calls.
    fn word_of(&self, card: u32) -> Result<Vec<u8>, AllocError> {
        let mut word = Vec::new(self.alloc);
        if let Some(card) = self.scene.cards.get(card as usize) {
            if let Some(thread) = self.scene.lanes.get(card.lane) {
                push_who(thread.as_slice(), card.turn, &mut word)?;
            }
        }
        Ok(word)
    }

    /// Adds a text to the names, and answers where.
    fn push_text(&mut self, bytes: Vec<u8>) -> Result<u32, AllocError> {
        let place = short(self.scene.names.len());
        self.scene.names.push(Text { bytes, alike: 0 })?;
        Ok(place)
    }

    /// Where the word of the call for which a line waits stands among the names; 0 where it waits for none.
    fn holder_of(&mut self, line: &Line) -> Result<u32, AllocError> {
        let Deed::Waits(_, holder) = line.deed else {
            return Ok(0);
        };
        let card = self.so_far.card_of(holder.get());
        if let Some(place) = self.holders.get(&card) {
            return Ok(*place);
        }
        let word = self.word_of(card)?;
        let place = self.push_text(word)?;
        self.holders.insert(card, place)?;
        Ok(place)
    }

    /// A call does this at an event, to a node of this name.
    fn mark(&mut self, line: &Line, what: What, name: &[u8]) -> Result<(), AllocError> {
        if let (What::Begin, Some(lane)) = (what, line.seat) {
            let turn = self.next_turn(lane);
            self.scene
                .cards
                .push(Card::new(self.alloc, line.call, lane, turn))?;
        }
        self.so_far.note(what);
        let mark = Mark {
            at: line.number as u64,
            card: self.so_far.card_of(line.call),
            name: self.place_of(what, name)?,
            what,
        };
        self.scene.push_mark(mark, self.so_far.commits)
    }

    /// Where the name of the node of which a call tells stands among the names: where the node had this one before, there.
    fn place_of(&mut self, what: What, name: &[u8]) -> Result<Option<u32>, AllocError> {
        let (What::Take(node) | What::Wait(node, _)) = what else {
            return Ok(None);
        };
        if let Some(place) = self.places.get(&node) {
            if let Some(old) = self.scene.names.get(*place as usize) {
                if old.bytes.as_slice() == name {
                    return Ok(Some(*place));
                }
            }
        }
        let place = self.push_text(Vec::from_slice(self.alloc, name)?)?;
        self.places.insert(node, place)?;
        Ok(Some(place))
    }
}

impl Page for Strip {
    ghost Has = { λ _ _ _. Unit {0} };

    fn show(&mut self, line: Line, words: &[u8]) -> Result<(), AllocError> {
        if line.deed == Deed::Checkpoint {
            self.so_far.checkpoint();
            self.scene.checkpoints.push(line.number as u64)?;
            return Ok(());
        }
        let holder = self.holder_of(&line)?;
        match what_of(&line, &self.so_far, holder) {
            Some(what) => self.mark(&line, what, name_of(&line, words)),
            None => Ok(()),
        }
    }
}

/// Adds the words of the calls that began, and of what they returned.
fn add_words(
    alloc: Global,
    script: &Script,
    calls: &[CallPlace],
    replies: &[Option<Reply>],
    cards: &mut Vec<Card>,
) -> Result<(), AllocError> {
    for i in 0..calls.len().min(cards.len()) {
        let place = calls[i];
        if let Some(call) = script.lists.of(place.seat).get(place.at) {
            cards[i].tell(alloc, call)?;
        }
        if let Some(Some(reply)) = replies.get(i) {
            cards[i].reply = Reported::of(alloc, reply)?;
        }
    }
    Ok(())
}

/// The commits, in their order, and whether each is of a call that is kept.
fn committed<'s>(
    alloc: Global,
    script: &'s Script,
    calls: &[CallPlace],
    cards: &[Card],
    kept: &[bool],
) -> Result<Vec<Commit<'s>>, AllocError> {
    let mut order = BTreeMap::new(alloc);
    for i in 0..cards.len() {
        if cards[i].order > 0 {
            order.insert(cards[i].commit, i)?;
        }
    }
    let mut commits = Vec::new(alloc);
    for at in order.values() {
        if let Some(place) = calls.get(*at) {
            if let Some(call) = script.lists.of(place.seat).get(place.at) {
                commits.push(Commit {
                    card: *at,
                    call,
                    is_shown: kept.get(*at) == Some(&true),
                })?;
            }
        }
    }
    Ok(commits)
}

/// The trees before and after the commits of those calls of a run that are kept.
fn trees_in(
    alloc: Global,
    script: &Script,
    calls: &[CallPlace],
    scene: &Scene,
    kept: &[bool],
) -> Result<Vec<Tree>, AllocError> {
    if !scene.shows_trees(kept) {
        return Ok(Vec::new(alloc));
    }
    let commits = committed(alloc, script, calls, scene.cards.as_slice(), kept)?;
    let tree = SeqTree::with_limits(alloc, script.limits)?;
    trees_of(
        alloc,
        tree,
        commits.as_slice(),
        scene.checkpoints.is_empty(),
    )
}

/// The scene of a run that was told: all its pieces, one after the other. Where a call's number is given, it has that call and those
/// around it alone; none where no call has this number.
pub fn scene_of_run(
    alloc: Global,
    script: &Script,
    story: Story<Strip>,
    call: Option<u64>,
) -> Result<Option<Scene>, AllocError> {
    let Story {
        page,
        calls,
        replies,
        ..
    } = story;
    let mut scene = page.scene;
    add_words(
        alloc,
        script,
        calls.as_slice(),
        replies.as_slice(),
        &mut scene.cards,
    )?;
    scene.calls = scene.cards.len();
    let Some(kept) = kept_in(alloc, &scene, call)? else {
        return Ok(None);
    };
    scene.trees = trees_in(alloc, script, calls.as_slice(), &scene, kept.as_slice())?;
    note_alike(alloc, &mut scene.names)?;
    Ok(Some(cut_to(alloc, scene, kept.as_slice(), call)?))
}
