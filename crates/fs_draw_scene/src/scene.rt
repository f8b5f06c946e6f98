//! What is drawn: lanes, calls, and the marks of what they did, in order.

use fs_calls::{Call, Errno, NodeCall, Reply, Target};
use fs_draw_sight::{Text, Tree, push_apart, write_shown_call, write_shown_reply};
use std::alloc::{AllocError, Global};

/// Of more calls than these details are left out.
const MOST_CALLS: usize = 2_000;

/// What a call did at a mark.
#[derive(Clone, Copy, Debug, PartialEq, Eq)]
pub enum What {
    /// It began.
    Begin,
    /// It took the node of this number.
    Take(u32),
    /// It waits for the node of this number, which a call holds whose word stands at this place among the names.
    Wait(u32, u32),
    /// It let the node of this number go.
    LetGo(u32),
    /// It gave the call at this place among the calls its place.
    Help(u32),
    /// It took its place.
    Commit,
    /// It made its change, whose place another call gave it.
    Carry,
    /// It returned.
    Return,
}

/// A place among the calls, or a number of a node or a call, as a mark has it: no text has room for so many calls that one is
/// longer, and no tree for so many nodes.
pub(crate) fn short(number: usize) -> u32 {
    if number > u32::MAX as usize {
        return u32::MAX;
    }
    number as u32
}

/// Something that a call did: the number of the entry or the event, the place of the call among the calls, and where the last name
/// of the node of which it tells stands among the names; none where it tells of no node. A run has many: the numbers are as short as those of calls and nodes.
#[derive(Clone, Copy, Debug)]
pub struct Mark {
    pub at: u64,
    pub card: u32,
    pub name: Option<u32>,
    pub what: What,
}

/// The words of a reply, and the error that it reports; no words where there is none.
#[derive(Drop)]
pub struct Reported {
    pub words: Vec<u8>,
    pub errno: Option<Errno>,
}

impl Reported {
    /// No reply. It takes no memory.
    pub fn none(alloc: Global) -> Reported {
        Reported {
            words: Vec::new(alloc),
            errno: None,
        }
    }

    /// A reply.
    pub fn of(alloc: Global, reply: &Reply) -> Result<Reported, AllocError> {
        let mut words = Vec::new(alloc);
        write_shown_reply(alloc, reply, &mut words)?;
        let errno = match reply {
            Reply::Failed(errno) => Some(*errno),
            _ => None,
        };
        Ok(Reported { words, errno })
    }

    /// Whether there is none.
    pub fn is_none(&self) -> bool {
        self.words.is_empty()
    }
}

/// A call: its number, which counts from 1 behind each checkpoint, its lane, its place among the calls of that, counted from 1, its
/// words, the bytes that it writes as they are shown (none where it writes none), its reply (none where it did not return), the reply that was due where it is another one, the kind of the fault where an entry of it has another fault, and where
/// it began, ended, took its place and was carried out. Numbers that are not there are 0.
#[derive(Drop)]
pub struct Card {
    pub number: u64,
    pub lane: usize,
    pub turn: u64,
    pub words: Vec<u8>,
    pub data: Vec<u8>,
    pub has_two_paths: bool,
    pub reply: Reported,
    pub due: Reported,
    pub fault: Vec<u8>,
    pub first: u64,
    pub last: u64,
    pub order: u64,
    pub commit: u64,
    pub helper: Option<usize>,
    pub carried: u64,
}

impl Card {
    /// A call of which nothing is told yet but its number, its lane, and its place there.
    pub fn new(alloc: Global, number: u64, lane: usize, turn: u64) -> Card {
        Card {
            number,
            lane,
            turn,
            words: Vec::new(alloc),
            data: Vec::new(alloc),
            has_two_paths: false,
            reply: Reported::none(alloc),
            due: Reported::none(alloc),
            fault: Vec::new(alloc),
            first: 0,
            last: 0,
            order: 0,
            commit: 0,
            helper: None,
            carried: 0,
        }
    }

    /// Tells which call it is.
    pub fn tell(&mut self, alloc: Global, call: &Call) -> Result<(), AllocError> {
        self.has_two_paths = matches!(
            call.target(),
            Target::Pair(_, _, _) | Target::Node(NodeCall::ListAfter(_, _), _)
        );
        write_shown_call(alloc, call, &mut self.words, &mut self.data)
    }
}

/// The fault of a journal: its words, and the mark at which it is; none where it is behind the last one.
#[derive(Drop)]
pub struct Fault {
    pub words: Vec<u8>,
    pub mark: Option<usize>,
}

/// What is drawn: the names of the lanes, the calls in the order of their begins, the marks, the names and the words of calls that
/// they mention, and of each checkpoint the number of the event after it; the trees before and after commits; whether it is a run, of
/// which each event is known; whether a wait has one mark, whoever holds the node; and how many calls there are in all.
#[derive(Drop)]
pub struct Scene {
    pub lanes: Vec<Vec<u8>>,
    pub cards: Vec<Card>,
    pub marks: Vec<Mark>,
    pub names: Vec<Text>,
    pub checkpoints: Vec<u64>,
    pub trees: Vec<Tree>,
    pub fault: Option<Fault>,
    pub is_run: bool,
    pub folds: bool,
    pub calls: usize,
    pub around: Option<u64>,
}

impl Scene {
    /// Whether there are so many calls that details are left out.
    pub fn is_large(&self) -> bool {
        self.cards.len() > MOST_CALLS
    }

    /// Whether trees are shown, if these calls are drawn.
    pub(crate) fn shows_trees(&self, kept: &[bool]) -> bool {
        let mut count = 0usize;
        for keeps in kept {
            if *keeps {
                count = count.saturating_add(1);
            }
        }
        count <= MOST_CALLS
    }

    /// Whether the events of a call have ticks.
    pub fn shows_ticks(&self) -> bool {
        self.is_run && !self.is_large()
    }

    /// Whether what is held and waited for is shown.
    pub fn shows_nodes(&self) -> bool {
        self.is_run && self.marks.len() <= 150_000
    }

    /// Whether there are so many lanes that labels are short, and empty lanes are left out.
    pub fn is_wide(&self) -> bool {
        self.lanes.len() > 16
    }

    /// The last name of the node at this place among the names; no bytes for none.
    pub fn name_at(&self, place: Option<u32>) -> &[u8] {
        match place {
            Some(place) => self.text_at(place),
            None => &[],
        }
    }

    /// A text among the names; no bytes where there is none at this place.
    pub fn text_at(&self, place: u32) -> &[u8] {
        match self.names.get(place as usize) {
            Some(text) => text.bytes.as_slice(),
            None => &[],
        }
    }

    /// Adds the name at this place among the names, cut to so many characters where it is longer: so that it differs from the
    /// others of the scene.
    pub fn push_name(
        &self,
        place: Option<u32>,
        most: usize,
        label: &mut Vec<u8>,
    ) -> Result<(), AllocError> {
        if let Some(text) = self.names.get(place.unwrap_or(u32::MAX) as usize) {
            return push_apart(text.bytes.as_slice(), text.alike, most, label);
        }
        Ok(())
    }

    /// The call of a mark.
    pub fn card_of(&self, mark: &Mark) -> Option<&Card> {
        self.cards.get(mark.card as usize)
    }

    /// Adds a mark, and notes at its call what it tells of that.
    pub fn push_mark(&mut self, mark: Mark, commits: u64) -> Result<(), AllocError> {
        self.note(mark.at, mark.card as usize, mark.what, commits);
        self.marks.push(mark)?;
        Ok(())
    }

    /// Notes at a call what a mark tells of it.
    fn note(&mut self, at: u64, card: usize, what: What, commits: u64) {
        if card < self.cards.len() {
            let one = &mut self.cards[card];
            one.last = at;
            match what {
                What::Begin => one.first = at,
                What::Commit => {
                    one.order = commits;
                    one.commit = at;
                }
                What::Carry => one.carried = at,
                _ => {}
            }
        }
        if let What::Help(helped) = what {
            let helped = helped as usize;
            if helped < self.cards.len() {
                let other = &mut self.cards[helped];
                other.order = commits;
                other.commit = at;
                other.helper = Some(card);
            }
        }
    }
}
