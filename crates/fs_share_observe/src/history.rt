//! The one history of a tree: its start tree, and then its calls. Each list that is published is a beginning of it.

ghost use Rattle.std.specs.Prelude.{◌≡◌, ◌+◌, ◌<◌, ◌≤◌, ◌^◌, ◌++◌, ◌∷◌, [], length, IfSome};
ghost use Rattle.fs_share_observe.specs.History.{head_of};
ghost use Rattle.fs_share_observe.specs.Pasts.{start_of, calls_of, past_of, IsNoted, GoesOn};

use fs_calls::Call;
use fs_seq::SeqTree;
use logbook::{Gain, Offer, Plain, Play, Rule, Seen, Start, Word};
use std::marker::{Brand, Model, PhantomData};
use std::sync::ledger::Ledger;

/// An entry of a history: the tree at which it starts, which is the first, or a call. No value of it is made.
#[derive(Drop)]
pub enum Noted {
    Began(SeqTree),
    Played(Call),
}

/// The rule of a history.
pub struct Law;

impl Rule<Noted, u64> for Law {
    ghost use Rattle.std.specs.Prelude.{[]};
    ghost use base.Fml.{ftrue};
    ghost use Rattle.fs_share_observe.specs.History.{IsKept};

    ghost holds = { λ cells log. IsKept cells log };

    ghost first = { [] };

    ghost hinted = { λ n log. Unit {0} };

    ghost shows = { λ log. [] };

    ghost keeps = { λ names log. ftrue };

    ghost moves = { λ ask before after answer. Unit {0} };
}

/// A beginning of some tree's history.
pub(crate) type Token = Seen<Noted, u64, Law>;

/// Callers trade nothing.
struct Nothing;

impl Gain<Noted, u64> for Nothing {
    ghost use base.Fml.{ftrue};

    ghost after = { λ names about answer. ftrue };
}

/// A step that adds an entry.
struct Add;

impl Play<Noted, u64> for Add {
    ghost use Rattle.fs_share_observe.specs.History.{Adds};

    ghost then = { Adds };
}

/// What such a step asks for: the call.
impl Plain<Call, Noted, u64> for Add {
    ghost use Rattle.std.specs.Prelude.{None};
    ghost use Rattle.fs_share_observe.specs.declared.history.Noted.TheVariants.{Played};

    ghost ask = { λ call. Played call };

    ghost state = { λ call. None };
}

/// The step that adds the start tree.
struct AddStart;

impl Plain<SeqTree, Noted, u64> for AddStart {
    ghost use Rattle.std.specs.Prelude.{None};
    ghost use Rattle.fs_share_observe.specs.declared.history.Noted.TheVariants.{Began};

    ghost ask = { λ tree. Began tree };

    ghost state = { λ tree. None };
}

/// Names a tree, and with it the history of its calls.
pub trait Named: Ledger {
    ghost use Rattle.logbook.specs.Pages.{Book};

    ghost book: { Book };
}

impl Named for Brand {
    ghost book = { record { number = 0; log_name = 0; cells_name = 0 } };
}

/// An empty history that no tree has yet: that it is empty is a fact of the type (`empty`). Contracts see which history it is.
#[derive(Drop)]
pub struct Opened {
    head: Word<Noted, u64, Law>,
    seen: Token,
    ghost empty: { seen.log ≡ [] },
    ghost head_is: { head ≡ head_of seen.book },
}

impl Model for Opened {
    ghost use Rattle.logbook.specs.Pages.{Book};

    ghost Value = { Book };

    ghost view = { λ opened. opened.seen.book };
}

impl Opened {
    /// A new history, another one each time. It takes no memory.
    pub fn new() -> Opened {
        let (seen, mut first, _second) = Seen::open(Start::alone(), 0, 0);
        Opened {
            head: Word::tracked(0, &mut first),
            seen,
        }
    }

    /// The history's word under the name of a tree, and the beginning that has nothing.
    pub(crate) fn named<N: Named>(self) -> (History<N>, Token)
        requires { self ≡ N.book }
        ensures { (result.1.book ≡ N.book) × (result.1.log ≡ []) }
    {
        let Opened { head, seen } = self;
        (
            History {
                head,
                of: PhantomData,
            },
            seen,
        )
    }
}

/// The word of a history: its length.
#[derive(Drop)]
pub(crate) struct History<N: Named> {
    head: Word<Noted, u64, Law>,
    of: PhantomData<N>,
    ghost head_is: { head ≡ head_of N.book },
}

/// A beginning of the history, with the start tree at least. Contracts see it as its entries.
#[derive(Drop)]
pub(crate) struct Front<N: Named> {
    calls: u64,
    seen: Token,
    of: PhantomData<N>,
}

impl<N: Named> Model for Front<N> {
    ghost use Rattle.std.specs.Prelude.{◌≡◌, List, length};
    ghost use Rattle.fs_share_observe.specs.Pasts.{calls_of, IsNoted};
    ghost use Rattle.fs_share_observe.specs.declared.history.Noted.{Noted};

    ghost Value = { List Noted };

    ghost view = { λ f. f.seen.log };

    ghost invariant = { λ f. (f.calls ≡ length (calls_of f.seen.log)) × (f.seen.book ≡ N.book) × IsNoted f.seen.log };
}

impl<N: Named> Front<N> {
    /// How many calls it has.
    pub fn len(&self) -> u64
        ensures { result ≡ length (calls_of self.now) }
    {
        self.calls
    }

    /// The same beginning without its tree's name.
    pub fn token(&self) -> Token
        ensures { (result.log ≡ self.now) × (result.book ≡ N.book) × IsNoted result.log }
    {
        self.seen.again()
    }

    /// The beginning that a token of the tree's history means.
    pub fn of(token: &Token, calls: u64) -> Front<N>
        requires book { token.now.book ≡ N.book }
        requires noted { IsNoted token.now.log }
        requires length { calls ≡ length (calls_of token.now.log) }
        ensures { result ≡ token.now.log }
    {
        Front {
            calls,
            seen: token.again(),
            of: PhantomData,
        }
    }

    /// The same again.
    pub fn again(&self) -> Front<N>
        ensures { result ≡ self.now }
    {
        Front {
            calls: self.calls,
            seen: self.seen.again(),
            of: PhantomData,
        }
    }

    /// The longer of two beginnings of one history, which begins with the other.
    pub fn longer(&self, other: &Front<N>) -> Front<N>
        ensures first { length (calls_of other.now) ≤ length (calls_of self.now) → result ≡ self.now }
        ensures this { GoesOn (past_of self.now) (past_of result) }
        ensures that { GoesOn (past_of other.now) (past_of result) }
    {
        let mut both = self.seen.again();
        both.learn(&other.seen);
        if self.calls < other.calls {
            other.again()
        } else {
            self.again()
        }
    }

    /// Adds a call to the history after these entries. It does not where the history is longer.
    pub fn add(&self, history: &History<N>, call: &Call) -> Option<Front<N>>
        requires { length (calls_of self.now) < 2 ^ 62 }
        ensures { IfSome result (λ front. front ≡ self.now ++ Noted.Played call.now ∷ []) }
    {
        let mut seen = self.seen.again();
        let mut offer: Offer<Noted, u64, Law, Nothing> = seen.plain::<Nothing, Call, Add>(call);
        let mut pen = seen.no_pen();
        let length = self.calls + 1;
        let found = history
            .head
            .compare_exchange::<Add, Nothing>(length, length + 1, &mut seen, &mut offer, &mut pen);
        if found != length {
            return None;
        }
        Some(Front {
            calls: length,
            seen,
            of: PhantomData,
        })
    }
}

impl<N: Named> History<N> {
    /// Begins the history with a start tree. It does not where the history has begun.
    pub fn begin(&self, token: Token, tree: &SeqTree) -> Option<Front<N>>
        requires book { token.book ≡ N.book }
        requires empty { token.log ≡ [] }
        ensures { IfSome result (λ front. front ≡ Noted.Began tree.now ∷ []) }
    {
        let mut seen = token;
        let mut offer: Offer<Noted, u64, Law, Nothing> = seen.plain::<Nothing, SeqTree, AddStart>(
            tree,
        );
        let mut pen = seen.no_pen();
        let found = self
            .head
            .compare_exchange::<Add, Nothing>(0, 1, &mut seen, &mut offer, &mut pen);
        if found != 0 {
            return None;
        }
        Some(Front {
            calls: 0,
            seen,
            of: PhantomData,
        })
    }
}
