//! What the owner posts to a crew that follows it, and which moves it asks for.

ghost use Rattle.std.specs.Prelude.{◌≡◌, ◌-◌, ◌≤◌, [], List, false, true, min, None, IfSome};
ghost use Rattle.fab_sched.specs.Annealing.{IsLawful};
ghost use Rattle.fab_arch.specs.declared.array.Site.{Site};
ghost use Rattle.fab_arch.specs.Grid.{GridShape};
ghost use Rattle.fab_net.specs.Netlist.{Netlist};
ghost use Rattle.fab_cost.specs.Cost.{cost_of};
ghost use Rattle.fab_cost.specs.Swapping.{CountedStandsFor};
ghost use Rattle.fab_commit.specs.Serial.{Run, Standing};
ghost use Rattle.fab_commit.specs.Run.Behind.{MayBeFollowed, after_post};
ghost use Rattle.fab_commit.specs.Run.Commits.{IsSound, run_for, standing_of};
ghost use Rattle.fab_commit.specs.Run.Followed.{IsTied, IsYetToFollow};

use crate::run::behind::Pursue;
use crate::run::followers::Followers;
use crate::run::post::{MoveRange, Post};
use crate::run::state::{Given, State};
use crate::run::swaps::Accepted;
use fab_board::{Boarding, Naming, Origin};
use fab_cost::WireCost;
use fab_site::Words;
use std::alloc::Global;
use std::mem;
use std::sync::Wait;

/// What the owner made since its last post, and which moves it asks for.
pub(crate) fn post_of(state: &State, swaps: Vec<Accepted>, range: MoveRange) -> Post
    ensures swaps { result.swaps.items ≡ swaps.items }
    ensures stage { result.stage ≡ state.now.stage }
    ensures asks { (result.first ≡ range.first) × (result.count ≡ range.moves) }
    ensures rest { (result.ended ≡ state.now.ended) × (result.done ≡ state.now.done) ×
        (result.total ≡ state.now.total) }
    ensures cost { (d : Netlist) (g : GridShape) (sites : List Site) →
        CountedStandsFor state.now.cost d g sites → result.cost ≡ cost_of d g sites }
{
    Post {
        swaps,
        cost: state.cost.cost(),
        stage: state.stage,
        ended: state.ended,
        done: state.done,
        total: state.total,
        first: range.first,
        count: range.moves,
    }
}

/// Posts `post` to the crew, if there is one. If the post is refused, because there were too many posts, lets the crew go.
fn post_or_let_go<S: Pursue, J: Naming + Boarding + Origin<S>, R: Wait>(
    rt: &R,
    followers: &mut Option<Followers<S, J>>,
    post: Post,
)
    requires may { IfSome followers.old (λ f.
        (r : Run) × (x : Standing) × IsTied S.run S.standing S.after J.start f.0 r x ×
        MayBeFollowed r x post) }
    ensures base { (r : Run) (x : Standing) →
        IfSome followers.old (λ f. IsTied S.run S.standing S.after J.start f.0 r x) →
        IfSome followers.new (λ f. IsTied S.run S.standing S.after J.start f.1 r x) }
    ensures tied { (r : Run) (x : Standing) →
        IfSome followers.old (λ f. IsTied S.run S.standing S.after J.start f.0 r x) →
        IfSome followers.new (λ f.
        IsTied S.run S.standing S.after J.start f.0 r (after_post x post)) }
    ensures nobody { followers.old ≡ None → followers.new ≡ None }
{
    let is_posted = match followers {
        Some(crew) => crew.post(rt, post),
        None => true,
    };
    if !is_posted {
        *followers = None;
    }
}

/// Takes the swaps that the crew is yet to follow, if there is a crew that has begun: those of the turn before. Leaves an empty list.
pub(crate) fn taken_swaps<S: Pursue, J: Naming + Boarding + Origin<S>>(
    alloc: Global,
    swaps: &mut Vec<Accepted>,
    followers: &mut Option<Followers<S, J>>,
    begun: bool,
) -> Vec<Accepted>
    ensures same { followers.new ≡ followers.old }
    ensures left { swaps.new.items ≡ [] }
    ensures taken { begun ≡ true → IfSome followers.old (λ _. result.items ≡ swaps.old.items) }
    ensures none { begun ≡ false → result.items ≡ [] }
{
    if begun {
        if let Some(crew) = followers {
            return mem::replace(swaps, crew.fresh());
        }
    }
    swaps.clear();
    Vec::new(alloc)
}

/// How a turn divides the next moves of its stage.
#[derive(Clone, Copy)]
pub(crate) struct Shape {
    /// How many moves the turn makes.
    pub(crate) moves: u64,
    /// How many of them count as judged ahead.
    pub(crate) judged: u64,
    /// How many moves after them are judged ahead meanwhile.
    pub(crate) next: u64,
}

/// How a turn of at most `batch` moves divides the `left` moves of its stage, the first `ahead` of which count as judged ahead.
pub(crate) fn shape_of(ahead: u64, batch: u64, left: u64) -> Shape
    ensures moves { result.moves ≡ min batch left }
    ensures judged { result.judged ≡ min ahead (min batch left) }
    ensures next { result.next ≡ min batch (left - min batch left) }
{
    let moves = batch.min(left);
    Shape {
        moves,
        judged: ahead.min(moves),
        next: batch.min(left - moves),
    }
}

/// Posts the swaps that the crew is yet to follow, if there is a crew, and asks it for the moves after the turn. If the crew has not begun,
/// asks it first for the moves of the turn that do not count as judged ahead. If a post is refused, because there were too many posts, lets
/// the crew go.
pub(crate) fn ask<W: Words, S: Pursue, J: Naming + Boarding + Origin<S>, R: Wait>(
    rt: &R,
    given: &Given<'_, W>,
    state: &State,
    followers: &mut Option<Followers<S, J>>,
    swaps: Vec<Accepted>,
    begun: bool,
    shape: Shape,
)
    requires plan { IsLawful given.now.schedule }
    requires sound { IsSound (run_for W.moves given.now) state.now }
    requires limits { (shape.judged ≤ shape.moves) × (shape.moves ≤ 4096) }
    requires yet { (x : Standing) ×
        IsYetToFollow S.run S.standing S.after J.start (run_for W.moves given.now) x state.now
        swaps.items begun followers.old }
    ensures { (x : Standing) →
        IsYetToFollow S.run S.standing S.after J.start (run_for W.moves given.now) x state.now
        swaps.items begun followers.old →
        IfSome followers.new (λ f.
        IsTied S.run S.standing S.after J.start f.1 (run_for W.moves given.now) x ×
        IsTied S.run S.standing S.after J.start f.0 (run_for W.moves given.now)
        (standing_of state.now)) }
{
    let next = MoveRange {
        first: state.done + shape.moves,
        moves: shape.next,
    };
    if begun {
        post_or_let_go(rt, followers, post_of(state, swaps, next));
        return;
    }
    let others = MoveRange {
        first: state.done + shape.judged,
        moves: shape.moves - shape.judged,
    };
    let none = Vec::new(given.alloc);
    post_or_let_go(rt, followers, post_of(state, none, others));
    post_or_let_go(rt, followers, post_of(state, swaps, next));
}
