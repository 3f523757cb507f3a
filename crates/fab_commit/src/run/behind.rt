//! The state that follows the owner: a placement with its wire cost, some turns older than the live one. It applies the swaps that the
//! owner posts, and judges moves.

ghost use Rattle.std.specs.Prelude.{◌≡◌, false};
ghost use Rattle.std.specs.Arc.{arc_value};
ghost use Rattle.fab_commit.specs.Run.Commits.{IsSound, run_for, standing_of};
ghost use Rattle.fab_commit.specs.Run.Behind.{MayBeFollowed, after_post};

use crate::run::early_reads::read_early;
use crate::run::foreseen::{Foreseen, foresee};
use crate::run::post::Post;
use crate::run::state::{Given, State};
use fab_board::{Follow, Gate};
use fab_site::Words;
use std::marker::Model;
use std::sync::Arc;

/// A thread's own state, which follows the owner's. Contracts see what the run is given, and the standing.
pub struct Behind<'a, 'g, W: Words + Drop, G: Gate> {
    given: Arc<Given<'a, W>>,
    state: State,
    gate: &'g G,
    /// What was read early. It has no meaning, and is kept so that the compiler keeps the reads.
    read: u64,
}

impl<'a, 'g, W: Words + Drop, G: Gate> Drop for Behind<'a, 'g, W, G> {
    // This is one call wherever a value goes out of scope. A derived `drop` would be proved again at each place.
    fn drop(self) {
        let Behind {
            given: _,
            state: _,
            gate: _,
            read: _,
        } = self;
    }
}

impl<'a, 'g, W: Words + Drop, G: Gate> Behind<'a, 'g, W, G> {
    /// A follower that stands where `state` does.
    pub(crate) fn new(given: Arc<Given<'a, W>>, state: State, gate: &'g G) -> Behind<'a, 'g, W, G>
        requires sound { IsSound (run_for W.moves (arc_value given)) state }
        ensures { result ≡ record { given = arc_value given.entry; standing = standing_of state } }
    {
        Behind {
            given,
            state,
            gate,
            read: 0,
        }
    }
}

impl<'a, 'g, W: Words + Drop, G: Gate> Model for Behind<'a, 'g, W, G> {
    ghost use Rattle.std.specs.Arc.{arc_value};
    ghost use Rattle.fab_commit.specs.Run.Commits.{IsSound, run_for, standing_of};
    ghost use Rattle.fab_commit.specs.Run.Behind.{BehindOf};

    ghost Value = { BehindOf W };

    ghost view = { λ b. record { given = arc_value b.given; standing = standing_of b.state } };

    ghost invariant = { λ b. IsSound (run_for W.moves (arc_value b.given)) b.state };
}

/// A state that follows the owner of a run.
pub trait Pursue: Follow<Post, Foreseen> {
    ghost use Rattle.std.specs.Prelude.{ℕ, ◌≡◌};
    ghost use Rattle.fab_commit.specs.declared.run.foreseen.Foreseen.{Foreseen as Sight};
    ghost use Rattle.fab_commit.specs.declared.run.post.Post.{Post as IsPost};
    ghost use Rattle.fab_commit.specs.Serial.{Run, Standing};
    ghost use Rattle.fab_commit.specs.Run.Behind.{MayBeFollowed, after_post};
    ghost use Rattle.fab_commit.specs.Run.Foreseen.{IsForeseen};

    /// Its run.
    ghost run: { Self → Run };

    /// The standing that it has followed to.
    ghost standing: { Self → Standing };

    ghost follows: { (s : Self) (e : IsPost) →
        MayBeFollowed (run s) (standing s) e → Self.may s e };

    ghost stays: { (s : Self) (e : IsPost) → run (Self.after s e) ≡ run s };

    ghost goes: { (s : Self) (e : IsPost) → standing (Self.after s e) ≡ after_post (standing s) e };

    ghost answers: { (s : Self) (k : ℕ) (v : Sight) → Self.answer s k v →
        IsForeseen (run s) (standing s) k v };
}

/// Applies a post to a state.
fn follow_post<W: Words>(given: &Given<'_, W>, state: &mut State, post: &Post)
    requires sound { IsSound (run_for W.moves given.now) state.old }
    requires may { MayBeFollowed (run_for W.moves given.now) (standing_of state.old) post.now }
    ensures stands { standing_of state.new ≡ after_post (standing_of state.old) post.now }
    ensures sound { IsSound (run_for W.moves given.now) state.new }
{
    for accepted in &post.swaps {
        state
            .cost
            .renew(given.design, given.grid, &state.placement, &accepted.swap);
        state.placement.apply(&accepted.swap);
    }
    state
        .cost
        .set_cost(given.design, given.grid, &state.placement, post.cost);
    state.stage = post.stage;
    state.ended = post.ended;
    state.done = post.done;
    state.total = post.total;
}

impl<'a, 'g, W: Words + Drop, G: Gate> Follow<Post, Foreseen> for Behind<'a, 'g, W, G> {
    ghost use Rattle.fab_commit.specs.Run.Behind.{MayBeFollowed, after_post};
    ghost use Rattle.fab_commit.specs.Run.Commits.{run_for};
    ghost use Rattle.fab_commit.specs.Run.Foreseen.{IsForeseen};
    ghost use Rattle.std.specs.Prelude.{◌≡◌, is_some, true};

    ghost may = { λ s e. MayBeFollowed (run_for W.moves s.given) s.standing e };

    ghost after = { λ s e. record s { standing = after_post s.standing e } };

    ghost answer = { λ s k v. IsForeseen (run_for W.moves s.given) s.standing k v };

    /// The run has not ended, so there is a temperature.
    ghost ready = { λ s. is_some s.standing.heat ≡ true };

    fn first(&self, post: &Post) -> u64 {
        post.first
    }

    fn count(&self, post: &Post) -> u64 {
        post.count
    }

    fn blank(&self) -> Foreseen {
        Foreseen::nothing()
    }

    fn follow(&mut self, post: &Post) {
        let given: &Given<'_, W> = &self.given;
        follow_post(given, &mut self.state, post);
    }

    // The loop is not in a function of its own, because a gate that all threads share cannot be lent to a function of this thread. A unit's
    // words are drawn after `before_judge` of its first move. If the gate does something, a unit is one move.
    fn judge(&mut self, first: u64, count: u64, places: &mut [Foreseen]) -> bool {
        if self.state.ended || count == 0 {
            return false;
        }
        let given: &Given<'_, W> = &self.given;
        let state: &State = &self.state;
        let mut words = [[0u32; 4]; 32];
        let some = &mut words[..count as usize];
        self.gate.before_judge(first);
        given.words.fill_words(first, some);
        let read = read_early(given, state, &*some);
        'places: for i in 0..count as usize {
            let number = first + i as u64;
            if i > 0 {
                self.gate.before_judge(number);
            }
            places[i] = foresee(given, state, number, some[i]);
            self.gate.after_judge(number);
        }
        self.read ^= read;
        true
    }
}

impl<'a, 'g, W: Words + Drop, G: Gate> Pursue for Behind<'a, 'g, W, G> {
    ghost use Rattle.std.specs.Prelude.{refl};
    ghost use Rattle.fab_commit.specs.Run.Commits.{run_for};

    ghost run = { λ s. run_for W.moves s.given };

    ghost standing = { λ s. s.standing };

    ghost follows = { λ s e h. h };

    ghost stays = { λ s e. refl };

    ghost goes = { λ s e. refl };

    ghost answers = { λ s k v h. h };
}
