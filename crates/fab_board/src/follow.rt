//! States that follow posts, and the sheets that carry answers from thread to thread.
ghost use Rattle.std.specs.Prelude.{◌≡◌, ℕ, ◌+◌, ◌-◌, ◌^◌, ◌<◌, ◌≤◌, List, ◌++◌, ◌∷◌, [], length, true, Option, Some, None, IfOk, IfSome, slice_index_or, vec_len, min};
ghost use Rattle.fab_board.specs.Posts.{latest};
ghost use Rattle.fab_board.specs.Follows.{IsAnswerAfter, MayFollow, followed};

use crate::book::{Front, Naming};
use std::alloc::{AllocError, Global};
use std::marker::{Brand, Model, PhantomData};
use std::mem;
use std::snapshot::Snapshot;

/// A state that follows posts, and judges numbers.
pub trait Follow<E, T>: Drop {
    ghost may: { Self → E → Type 0 };

    ghost after: { Self → E → Self };

    ghost answer: { Self → ℕ → T → Type 0 };

    /// The state answers whatever it is asked: `judge` returns true if `count` is above 0.
    ghost ready: { Self → Type 0 };

    /// The first number that a post asks for.
    fn first(&self, post: &E) -> u64;

    /// How many numbers a post asks for.
    fn count(&self, post: &E) -> u64;

    /// What a place holds before its first answer.
    fn blank(&self) -> T;

    /// Changes the state by a post.
    fn follow(&mut self, post: &E)
        requires { may self.old post.now }
        ensures { self.new ≡ after self.old post.now };

    /// Judges the `count` numbers from `first` on, and writes the answers into the first `count` places. Returns whether it did.
    fn judge(&mut self, first: u64, count: u64, places: &mut [T]) -> bool
        requires few { (count ≤ 32) × (count ≤ length places.old) }
        requires low { first < 2 ^ 62 }
        ensures same { self.new ≡ self.old }
        ensures many { length places.new ≡ length places.old }
        ensures judged { result ≡ true → (k : ℕ) (d : _) → k < count →
            answer self.old (first + k) (slice_index_or places.new k d) }
        ensures told { ready self.old → 0 < count → result ≡ true };
}

/// The state that all threads start from. Each call of a program picks it.
pub trait Origin<S> {
    ghost use Rattle.std.specs.Prelude.{Option};

    ghost start: { Option S };
}

impl<S> Origin<S> for Brand {
    ghost use Rattle.std.specs.Prelude.{None};

    ghost start = { None };
}

/// A post that all threads read, and the front that ends with it.
#[derive(Drop)]
pub struct Posted<S: Follow<E, T>, E: Drop, T: Drop, J: Naming + Origin<S>> {
    post: E,
    front: Front<E, J>,
    // This holds no state and no answer, so threads may share it whatever `S` and `T` are.
    of: PhantomData<Snapshot<(S, T)>>,
}

impl<S: Follow<E, T>, E: Drop, T: Drop, J: Naming + Origin<S>> Model for Posted<S, E, T, J> {
    ghost use Rattle.std.specs.Prelude.{◌≡◌, List, Some};
    ghost use Rattle.fab_board.specs.Posts.{latest};
    ghost use Rattle.fab_board.specs.Follows.{MayFollow};

    ghost Value = { E × List E };

    ghost view = { λ p. (p.post, p.front) };

    ghost invariant = { λ p.
        (latest p.front ≡ Some p.post) × MayFollow S.may S.after J.start p.front p.post };
}

impl<S: Follow<E, T>, E: Drop, T: Drop, J: Naming + Origin<S>> Posted<S, E, T, J> {
    /// A post with the front that it was entered in.
    pub fn new(post: E, front: Front<E, J>) -> Posted<S, E, T, J>
        requires ends { latest front ≡ Some post }
        requires may { MayFollow S.may S.after J.start front post }
    {
        Posted {
            post,
            front,
            of: PhantomData,
        }
    }

    /// The post alone.
    pub fn into_post(self) -> E {
        let Posted {
            post,
            front: _,
            of: _,
        } = self;
        post
    }
}

/// A thread's own state, and the posts that it has followed. Contracts see these posts.
#[derive(Drop)]
pub struct Follower<S: Follow<E, T>, E: Drop, T: Drop, J: Naming + Origin<S>> {
    state: S,
    front: Front<E, J>,
    first: u64,
    count: u64,
    of: PhantomData<T>,
}

impl<S: Follow<E, T>, E: Drop, T: Drop, J: Naming + Origin<S>> Model for Follower<S, E, T, J> {
    ghost use Rattle.std.specs.Prelude.{List};
    ghost use Rattle.fab_board.specs.Follows.{Follows};

    ghost Value = { List E };

    ghost view = { λ f. f.front };

    ghost invariant = { λ f. Follows S.after J.start f.front f.state };
}

impl<S: Follow<E, T>, E: Drop, T: Drop, J: Naming + Origin<S>> Follower<S, E, T, J> {
    /// A follower that has followed no post.
    pub fn new(state: S, front: Front<E, J>) -> Follower<S, E, T, J>
        requires start { J.start ≡ Some state }
        requires empty { front ≡ [] }
        ensures { result ≡ [] }
    {
        Follower {
            state,
            front,
            first: 0,
            count: 0,
            of: PhantomData,
        }
    }

    /// How many posts it has followed.
    pub fn len(&self) -> u64
        ensures { result ≡ length self.now }
    {
        self.front.len()
    }

    /// The first number that the last post asks for.
    pub fn first(&self) -> u64 {
        self.first
    }

    /// How many numbers the last post asks for.
    pub fn count(&self) -> u64 {
        self.count
    }

    /// The first number that `post` asks for, and how many numbers.
    pub fn asked(&self, post: &E) -> (u64, u64) {
        (self.state.first(post), self.state.count(post))
    }

    /// Allocates places for `count` answers.
    pub fn places(&self, alloc: Global, count: u64) -> Result<Vec<T>, AllocError> {
        let mut places = Vec::new(alloc);
        for _place in 0..count {
            places.push(self.state.blank())?;
        }
        Ok(places)
    }

    /// Follows the post if it is the next one. Returns whether it did.
    pub fn follow(&mut self, posted: &Posted<S, E, T, J>) -> bool
        ensures { result ≡ true → length self.new ≡ length self.old + 1 }
    {
        if !self.front.is_next(&posted.front) {
            return false;
        }
        self.first = self.state.first(&posted.post);
        self.count = self.state.count(&posted.post);
        self.state.follow(&posted.post);
        self.front = posted.front.again();
        true
    }
}

/// Answers for numbers in a row, and the posts after which they were judged. Threads hand sheets over without moving the answers. When
/// a sheet is used again, its answers are overwritten. Contracts see the posts, the first number, how many places have answers, and
/// the places.
#[derive(Drop)]
pub struct Sheet<S: Follow<E, T>, E: Drop, T: Drop, J: Naming + Origin<S>> {
    front: Front<E, J>,
    first: u64,
    filled: u64,
    places: Vec<T>,
    of: PhantomData<S>,
}

impl<S: Follow<E, T>, E: Drop, T: Drop, J: Naming + Origin<S>> Model for Sheet<S, E, T, J> {
    ghost use Rattle.std.specs.Prelude.{◌≤◌, ℕ, List, length};
    ghost use Rattle.fab_board.specs.Follows.{AreAnswersAfter};

    ghost Value = { List E × ℕ × ℕ × List T };

    ghost view = { λ s. (s.front, s.first, s.filled, s.places.items) };

    ghost invariant = { λ s.
        (s.filled ≤ length s.places.items) ×
        AreAnswersAfter S.after S.answer J.start s.front s.first s.filled s.places.items };
}

impl<S: Follow<E, T>, E: Drop, T: Drop, J: Naming + Origin<S>> Sheet<S, E, T, J> {
    /// A sheet whose places hold no answer yet.
    pub fn new(front: Front<E, J>, places: Vec<T>) -> Sheet<S, E, T, J>
        ensures { result ≡ (front, 0, 0, places.items) }
    {
        Sheet {
            front,
            first: 0,
            filled: 0,
            places,
            of: PhantomData,
        }
    }

    /// Removes the answers. The next answers are for numbers from `first` on, judged after the posts of `front`.
    pub fn wipe(&mut self, front: Front<E, J>, first: u64)
        ensures { self.new ≡ (front, first, 0, self.old.3) }
    {
        self.filled = 0;
        self.front = front;
        self.first = first;
    }

    /// Whether there is an answer for `number`.
    pub fn has(&self, number: u64) -> bool
        ensures { result ≡ true → (self.now.1 ≤ number) × (number - self.now.1 < self.now.2) }
    {
        self.first <= number && number - self.first < self.filled
    }

    /// Whether the answers were judged after exactly the posts of `front`.
    pub fn is_after(&self, front: &Front<E, J>) -> bool
        ensures { result ≡ true → self.now.0 ≡ front.now }
    {
        self.front.is_same(front)
    }

    /// The answer for `number`, judged after the sheet's posts.
    pub fn at(&self, number: u64) -> &T
        requires { (self.now.1 ≤ number) × (number - self.now.1 < self.now.2) }
        ensures { IsAnswerAfter S.after S.answer J.start self.now.0 number result.now }
    {
        &self.places[(number - self.first) as usize]
    }

    /// The sheet's answers from `number` on, but at most `most` of them. They were judged after the sheet's posts.
    pub fn answers(&self, number: u64, most: u64) -> &[T]
        requires { (self.now.1 ≤ number) × (number - self.now.1 < self.now.2) }
        ensures many { length result.now ≡ min most (self.now.2 - (number - self.now.1)) }
        ensures each { (k : ℕ) (d : T) → k < length result.now →
            IsAnswerAfter S.after S.answer J.start self.now.0 (number + k)
            (slice_index_or result.now k d) }
    {
        let begin = number - self.first;
        let count = most.min(self.filled - begin);
        &self.places[begin as usize..(begin + count) as usize]
    }

    /// Takes the answer for `number`, judged after the sheet's posts, and leaves `other` in its place. The answers for later numbers are
    /// removed.
    pub fn take(&mut self, number: u64, other: T) -> T
        requires { (self.old.1 ≤ number) × (number - self.old.1 < self.old.2) }
        ensures answer { IsAnswerAfter S.after S.answer J.start self.old.0 number result }
        ensures posts { self.new.0 ≡ self.old.0 }
        ensures rest { (self.new.1 ≡ self.old.1) × (self.new.2 ≡ number - self.old.1) }
    {
        let place = number - self.first;
        self.filled = place;
        mem::replace(&mut self.places[place as usize], other)
    }

    /// Judges `count` numbers from the sheet's first one on into its places, but at most 32, and at most one for each place.
    pub fn judge(&mut self, by: &mut Follower<S, E, T, J>, count: u64)
        requires { self.old.0 ≡ by.old }
        ensures same { by.new ≡ by.old }
        ensures posts { self.new.0 ≡ self.old.0 }
        ensures first { self.new.1 ≡ self.old.1 }
        ensures filled { (s : S) → J.start ≡ Some s → S.ready (followed S.after s by.old) →
            self.old.1 < 2 ^ 62 → self.new.2 ≡ min count (min (length self.old.3) 32) }
    {
        let count = count.min(self.places.len() as u64).min(LONGEST);
        self.filled = 0;
        if self.first >= 1 << 62 {
            return;
        }
        if by.state.judge(self.first, count, &mut self.places) {
            self.filled = count;
        }
    }
}

/// The most numbers that are judged together.
const LONGEST: u64 = 32;

/// Judges the `count` numbers from `first` on into the sheet's places, within the limits of [`Sheet::judge`].
pub fn judge_unit<S: Follow<E, T>, E: Drop, T: Drop, J: Naming + Origin<S>>(
    by: &mut Follower<S, E, T, J>,
    first: u64,
    count: u64,
    sheet: &mut Sheet<S, E, T, J>,
)
    ensures same { by.new ≡ by.old }
    ensures posts { sheet.new.0 ≡ by.old }
    ensures first { sheet.new.1 ≡ first }
{
    sheet.wipe(by.front.again(), first);
    sheet.judge(by, count);
}
