//! The list of all posts, which only grows, and the prefixes of it that threads know. No thread stores the list: it exists only in proofs.
ghost use Rattle.std.specs.Prelude.{◌≡◌, ◌≢◌, ◌⊎◌, ◌+◌, ◌<◌, ◌≤◌, ◌^◌, ◌++◌, ◌∷◌, [], length, true, false, Some, MatchBool};
ghost use Rattle.fab_board.specs.Posts.{head_of, latest};

use logbook::{Gain, Offer, Plain, Play, Rule, Seen, Start, Word};
use std::marker::{Brand, Model, PhantomData};

/// The rule of the book.
pub struct Law;

impl<E> Rule<E, u64> for Law {
    ghost use Rattle.std.specs.Prelude.{[]};
    ghost use base.Fml.{ftrue};
    ghost use Rattle.fab_board.specs.Posts.{IsKept};

    ghost holds = { λ cells log. IsKept cells log };

    ghost first = { [] };

    ghost hinted = { λ n log. Unit {0} };

    ghost shows = { λ log. [] };

    ghost keeps = { λ names log. ftrue };

    ghost moves = { λ ask before after answer. Unit {0} };
}

/// A step gives its caller nothing in exchange.
pub struct Nothing;

impl<E> Gain<E, u64> for Nothing {
    ghost use base.Fml.{ftrue};

    ghost after = { λ names about answer. ftrue };
}

/// A step that adds an entry.
pub struct Add;

impl<E> Play<E, u64> for Add {
    ghost use Rattle.fab_board.specs.Posts.{Adds};

    ghost then = { Adds };
}

/// The step asks for the entry to add.
impl<E> Plain<E, E, u64> for Add {
    ghost use Rattle.std.specs.Prelude.{None};

    ghost ask = { λ entry. entry };

    ghost state = { λ entry. None };
}

/// Names a book. The name is part of a crew's type, so its threads cannot take the book of another crew. Each call that
/// makes a crew picks its own.
pub trait Naming {
    ghost use Rattle.logbook.specs.Pages.{Book};

    ghost book: { Book };
}

impl Naming for Brand {
    ghost book = { record { number = 0; log_name = 0; cells_name = 0 } };
}

/// An empty book that has no name yet. A crew is made from it. Contracts see it as that book.
pub struct Opened<E> {
    head: Word<E, u64, Law>,
    seen: Seen<E, u64, Law>,
}

impl<E> Model for Opened<E> {
    ghost use Rattle.std.specs.Prelude.{◌≡◌, []};
    ghost use Rattle.logbook.specs.Pages.{Book};
    ghost use Rattle.fab_board.specs.Posts.{head_of};

    ghost Value = { Book };

    ghost view = { λ o. o.seen.book };

    ghost invariant = { λ o. (o.seen.log ≡ []) × (o.head ≡ head_of o.seen.book) };
}

impl<E> Opened<E> {
    /// Opens an empty book that no thread has yet.
    pub fn new() -> Opened<E> {
        let (seen, mut first, _second) = Seen::open(Start::alone(), 0, 0);
        Opened {
            head: Word::tracked(0, &mut first),
            seen,
        }
    }

    /// Gives the book a name. Returns its word, and a front that has seen nothing.
    pub fn named<J: Naming>(self) -> (Book<E, J>, Front<E, J>)
        requires { self ≡ J.book }
        ensures { result.1 ≡ [] }
    {
        let Opened { head, seen } = self;
        (
            Book {
                head,
                of: PhantomData,
            },
            Front {
                count: 0,
                seen,
                of: PhantomData,
            },
        )
    }
}

/// The word that all threads share: how many entries there are.
#[derive(Drop)]
pub struct Book<E, J: Naming> {
    head: Word<E, u64, Law>,
    of: PhantomData<J>,
    ghost head_is: { head ≡ head_of J.book },
}

/// A prefix of the list: what was seen of it. Contracts see its entries.
#[derive(Drop)]
pub struct Front<E, J: Naming> {
    count: u64,
    seen: Seen<E, u64, Law>,
    of: PhantomData<J>,
}

impl<E, J: Naming> Model for Front<E, J> {
    ghost use Rattle.std.specs.Prelude.{◌≡◌, List, length};

    ghost Value = { List E };

    ghost view = { λ f. f.seen.log };

    ghost invariant = { λ f. (f.count ≡ length f.seen.log) × (f.seen.book ≡ J.book) };
}

fn is_one_more(x: u64, y: u64) -> bool
    ensures { result ≡ true → y ≡ x + 1 }
{
    x < y && y - x == 1
}

impl<E, J: Naming> Front<E, J> {
    /// A copy.
    pub fn again(&self) -> Front<E, J>
        ensures { result ≡ self.now }
    {
        Front {
            count: self.count,
            seen: self.seen.again(),
            of: PhantomData,
        }
    }

    /// Whether the two fronts are the same. Both are prefixes of one list, so they are the same if they have the same length.
    pub fn is_same(&self, other: &Front<E, J>) -> bool
        ensures same { result ≡ true → self.now ≡ other.now }
        ensures told { self.now ≡ other.now → result ≡ true }
    {
        let mut both = self.seen.again();
        both.learn(&other.seen);
        self.count == other.count
    }

    /// How many entries there are.
    pub fn len(&self) -> u64
        ensures { result ≡ length self.now }
    {
        self.count
    }

    /// Whether `other` is one entry longer. Then it is this front with that entry at its end.
    pub fn is_next(&self, other: &Front<E, J>) -> bool
        ensures { result ≡ true → (e : E) → latest other.now ≡ Some e →
            other.now ≡ self.now ++ e ∷ [] }
    {
        let mut both = self.seen.again();
        both.learn(&other.seen);
        is_one_more(self.count, other.count)
    }

    /// Adds `entry` to the list, if this front is the whole list. Returns whether it did. Adds nothing if the list is longer than this
    /// front, or if this front has 2^62 entries or more.
    pub fn enter(&mut self, book: &Book<E, J>, entry: &E) -> bool
        ensures added { result ≡ true → self.new ≡ self.old ++ entry.now ∷ [] }
        ensures refused { result ≡ false → (2 ^ 62 ≤ length self.old) ⊎
            (length self.new ≢ length self.old) }
    {
        if self.count >= 1 << 62 {
            return false;
        }
        let mut offer: Offer<E, u64, Law, Nothing> = self.seen.plain::<Nothing, E, Add>(entry);
        let mut pen = self.seen.no_pen();
        let count = self.count;
        let found = book
            .head
            .compare_exchange::<Add, Nothing>(
                count,
                count + 1,
                &mut self.seen,
                &mut offer,
                &mut pen,
            );
        self.count = if found == count { count + 1 } else { found };
        found == count
    }
}
