//! Scripts: threads with their calls, and a schedule.

ghost use Rattle.std.specs.Prelude.{◌≡◌, ◌↔◌, ◌<◌, ◌≤◌, ◌==◌, [], Some, map, length, get_or, slice_get, false, IsTrue, MatchOption, MatchResult};
ghost use Rattle.std.specs.List.{list_any};
ghost use Rattle.std.specs.Str.{bytes_eq};
ghost use Rattle.fs_script.specs.Script.{seat_named, with_call};
ghost use Rattle.fs_script.specs.code.Drafts.{Pushes};
ghost use Rattle.fs_words.specs.declared.fault.FaultKind.TheVariants as kind;

use fs_calls::Call;
use fs_names::Limits;
use fs_words::FaultKind;
use indexmap::IndexSet;
use std::alloc::Global;
use std::marker::Model;

/// What a script says: the threads' names and their calls, both in the order of the blocks, the words of its schedule, and
/// the limits of its version. The seat of a thread is its place, counted from 0.
#[derive(Drop)]
pub struct Script {
    pub names: ThreadNames,
    pub lists: CallLists,
    pub words: WordList,
    /// The limits by which it was read, and by which it is run.
    pub limits: Limits,
}

/// A word of a schedule.
#[derive(Clone, Copy, Debug, PartialEq, Eq)]
pub enum Word {
    /// So many events of the thread with this seat.
    Events(usize, u64),
    /// Rounds until no thread has anything to do.
    Finish,
    /// The journal begins again. It is no event of a thread.
    Checkpoint,
    /// From here on the schedule of a run decides: the words before prepare it, and are played as they stand.
    Drawn,
}

/// The names of threads, seen as their list, each once.
#[derive(Drop)]
pub struct ThreadNames {
    names: IndexSet<Vec<u8>>,
}

impl Model for ThreadNames {
    ghost use Rattle.std.specs.Prelude.{ℕ, List, map};

    ghost Value = { List (List ℕ) };

    ghost view = { λ n. map (λ name. name.items) n.names.keys };
}

impl ThreadNames {
    /// No names. It takes no memory.
    pub fn new(alloc: Global) -> ThreadNames
        ensures { result ≡ [] }
    {
        ThreadNames {
            names: IndexSet::new(alloc),
        }
    }

    /// How many threads there are.
    pub fn len(&self) -> usize
        ensures { result ≡ length self.now }
    {
        self.names.len()
    }

    /// Whether there are none.
    pub fn is_empty(&self) -> bool
        ensures { IsTrue result ↔ (self.now ≡ []) }
    {
        self.len() == 0
    }

    /// Whether a thread has this name. It takes no memory.
    pub fn contains(&self, name: &[u8]) -> bool
        ensures { result ≡ list_any (bytes_eq name.now) self.now }
    {
        self.names.contains(name)
    }

    /// The seat of the thread of this name, where there is one. It takes no memory.
    pub fn seat(&self, name: &[u8]) -> Option<usize>
        ensures { result ≡ seat_named self.now name.now }
    {
        self.names.get_index_of(name)
    }

    /// The name of the thread on a seat, where there is one. It takes no memory.
    pub fn name(&self, seat: usize) -> Option<&[u8]>
        ensures { MatchOption result (length self.now ≤ seat) (λ name. slice_get self.now seat ≡ Some name.now) }
    {
        match self.names.get_index(seat) {
            Some(name) => Some(name.as_slice()),
            None => None,
        }
    }

    /// Adds a name, which goes last.
    pub(crate) fn push(&mut self, alloc: Global, name: &[u8]) -> Result<(), FaultKind>
        requires { list_any (bytes_eq name.now) self.old ≡ false }
        ensures { Pushes result self.old self.new name.now }
    {
        let Ok(name) = Vec::from_slice(alloc, name) else {
            return Err(FaultKind::OutOfMemory);
        };
        match self.names.insert(name) {
            Ok(_) => Ok(()),
            Err(_) => Err(FaultKind::OutOfMemory),
        }
    }
}

fn push_last(calls: &mut Vec<Call>, call: Call) -> Result<(), FaultKind>
    ensures { Pushes result calls.old.items calls.new.items call }
{
    match calls.push(call) {
        Ok(()) => Ok(()),
        Err(_) => Err(FaultKind::OutOfMemory),
    }
}

/// Lists of calls, seen as what they hold.
#[derive(Drop)]
pub struct CallLists {
    lists: Vec<Vec<Call>>,
}

impl Model for CallLists {
    ghost use Rattle.std.specs.Prelude.{List, map};
    ghost use Rattle.fs_calls.specs.declared.call.Call.{Call};

    ghost Value = { List (List Call) };

    ghost view = { λ c. map (λ calls. calls.items) c.lists.items };
}

impl CallLists {
    /// No lists. It takes no memory.
    pub fn new(alloc: Global) -> CallLists
        ensures { result ≡ [] }
    {
        CallLists {
            lists: Vec::new(alloc),
        }
    }

    /// Whether there is none.
    pub fn is_empty(&self) -> bool
        ensures { result ≡ (length self.now == 0) }
    {
        self.lists.is_empty()
    }

    /// Adds a list without calls, which goes last.
    pub(crate) fn push_list(&mut self, alloc: Global) -> Result<(), FaultKind>
        ensures { Pushes result self.old self.new [] }
    {
        match self.lists.push(Vec::new(alloc)) {
            Ok(()) => Ok(()),
            Err(_) => Err(FaultKind::OutOfMemory),
        }
    }

    /// Adds a call to the last list.
    pub(crate) fn push_call(&mut self, call: Call) -> Result<(), FaultKind>
        requires { 0 < length self.old }
        ensures { MatchResult result (λ _. self.new ≡ with_call call self.old) (λ k. (k ≡ kind.OutOfMemory) × (self.new ≡ self.old)) }
    {
        let last = self.lists.len() - 1;
        push_last(&mut self.lists[last], call)
    }

    /// The lists, one for each thread.
    pub fn as_slice(&self) -> &[Vec<Call>]
        ensures { map (λ calls. calls.items) result.now ≡ self.now }
    {
        self.lists.as_slice()
    }

    /// The calls of the thread with a seat; none where there is no such thread.
    pub fn of(&self, seat: usize) -> &[Call]
        ensures { result.now ≡ get_or self.now seat [] }
    {
        if seat < self.lists.len() {
            self.lists[seat].as_slice()
        } else {
            &[]
        }
    }
}

/// Words of a schedule, seen as their list.
#[derive(Drop)]
pub struct WordList {
    words: Vec<Word>,
}

impl Model for WordList {
    ghost use Rattle.std.specs.Prelude.{List};
    ghost use Rattle.fs_script.specs.declared.script.Word.{Word};

    ghost Value = { List Word };

    ghost view = { λ w. w.words.items };
}

impl WordList {
    /// No words. It takes no memory.
    pub fn new(alloc: Global) -> WordList
        ensures { result ≡ [] }
    {
        WordList {
            words: Vec::new(alloc),
        }
    }

    /// Adds a word, which goes last.
    pub(crate) fn push(&mut self, word: Word) -> Result<(), FaultKind>
        ensures { Pushes result self.old self.new word }
    {
        match self.words.push(word) {
            Ok(()) => Ok(()),
            Err(_) => Err(FaultKind::OutOfMemory),
        }
    }

    /// The words, from left to right.
    pub fn as_slice(&self) -> &[Word]
        ensures { result.now ≡ self.now }
    {
        self.words.as_slice()
    }
}
