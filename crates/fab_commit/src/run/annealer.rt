//! An annealer: it commits moves in order of number. Workers judge them ahead, or the calling thread judges each when its turn comes.

ghost use Rattle.std.specs.Prelude.{◌≡◌, ◌↔◌, ℕ, ◌+◌, ◌-◌, ◌<◌, ◌≤◌, if◌then◌else◌, [], ◌∷◌, ◌++◌, length, map, min, true, false, Some, None, Ok, IfOk, IfSome};
ghost use Rattle.std.specs.Arc.{arc_value};
ghost use Rattle.fab_cost.specs.Cost.{cost_of};
ghost use Rattle.fab_sched.specs.Annealing.{IsLawful};
ghost use Rattle.fab_site.specs.Placement.{IsLegal, fixed_at};
ghost use Rattle.fab_move.specs.Judge.{says};
ghost use Rattle.fab_commit.specs.declared.model.judged.JudgedMove.{JudgedMove};
ghost use Rattle.fab_commit.specs.Serial.{IsStanding, at_start, from, moves_left, stage_of};
ghost use Rattle.fab_commit.specs.Run.Stages.{IsMade, IsMadeByTurns};
ghost use Rattle.fab_commit.specs.Run.Commits.{IsSound, run, run_for, run_of, standing_of, turn_of};
ghost use Rattle.fab_commit.specs.Run.Noted.{noted};
ghost use Rattle.fab_commit.specs.Run.Points.{IsPoint, TellsPoint, going_on, standing_at};
ghost use Rattle.fab_commit.specs.Run.Readings.{reading_at};

use crate::run::behind::Behind;
use crate::run::beside::{StagePlan, finish_beside};
use crate::run::keeping::{Keeping, KeepsNumbers};
use crate::run::pipeline::{Pipeline, first_pipeline};
use crate::run::point::{Point, point_in, point_of};
use crate::run::stage::{MovesPlan, finish_alone};
use crate::run::state::{Given, State, first_state, moves_left, running, state_at};
use crate::run::turn::Turn;
use fab_arch::Grid;
use fab_board::Gate;
use fab_cost::WireCost;
use fab_dial::{Dial, Reading, Shower};
use fab_move::Verdict;
use fab_net::Design;
use fab_sched::{Schedule, Stage};
use fab_site::{Fixed, Placement, Words};
use std::alloc::{AllocError, Global};
use std::marker::{Brand, Model, PhantomData};
use std::snapshot::Snapshot;
use std::sync::{Arc, Wait};
use std::thread::Threads;

/// Anneals a placement of a design on an array. `K` selects what it keeps of the accepted moves: their numbers, or only how many there are.
pub struct Anneal<'a, W: Words + Drop, K: Keeping = KeepsNumbers> {
    pub(crate) given: Arc<Given<'a, W>>,
    pub(crate) pipeline: Pipeline,
    /// How many moves of the run were accepted before this value began.
    pub(crate) before: u64,
    /// The state in which it began, for contracts alone.
    pub(crate) began: Snapshot<State>,
    pub(crate) keeping: PhantomData<K>,
}

impl<'a, W: Words + Drop, K: Keeping> Model for Anneal<'a, W, K> {
    ghost use Rattle.std.specs.Prelude.{map};
    ghost use Rattle.std.specs.Arc.{arc_value};
    ghost use Rattle.fab_commit.specs.Run.Commits.{AnnealOf, run_for, standing_of};
    ghost use Rattle.fab_commit.specs.Run.Owners.{verdict_of};
    ghost use Rattle.fab_commit.specs.Run.Pipelines.{HasTurn};
    ghost use Rattle.fab_commit.specs.Run.Since.{IsSince, accepted_since};

    ghost Value = { AnnealOf W };

    ghost view = { λ a. record {
      design = (arc_value a.given).design.now;
      grid = (arc_value a.given).grid.now;
      fixed = (arc_value a.given).fixed;
      plan = (arc_value a.given).schedule;
      words = (arc_value a.given).words;
      standing = standing_of a.pipeline.owner.state;
      ahead = map (verdict_of a.pipeline.base) a.pipeline.ahead.items;
      swaps = a.pipeline.owner.swaps.items;
      accepted = accepted_since (run_for W.moves (arc_value a.given)) (standing_of a.began.value) a.pipeline.owner.state.done;
      redone = a.pipeline.owner.redone;
    } };

    ghost invariant = { λ a.
        HasTurn (run_for W.moves (arc_value a.given)) a.pipeline ×
        IsSince (run_for W.moves (arc_value a.given)) K.numbers a.before (standing_of a.began.value)
        a.pipeline.owner.state };
}

impl<'a, W: Words + Drop, K: Keeping> Drop for Anneal<'a, W, K> {
    // This is one call wherever an annealer goes out of scope. A derived `drop` would be proved again at each place.
    fn drop(self) {
        let Anneal {
            given: _,
            pipeline: _,
            before: _,
            began: _,
            keeping: _,
        } = self;
    }
}

impl<'a, W: Words + Drop> Anneal<'a, W> {
    /// Creates an annealer before its first move, with this placement. By contract the placement is a legal one of the array. An error
    /// means that memory ran out.
    pub fn new(
        alloc: Global,
        design: &'a Design,
        grid: &'a Grid,
        placement: Placement,
        fixed: Fixed,
        schedule: Schedule,
        words: W,
    ) -> Result<Anneal<'a, W>, AllocError>
        requires legal { IsLegal design.now grid.now fixed placement.sites }
        ensures { IfOk result (λ a.
            a ≡ record {
              design = design.now;
              grid = grid.now;
              fixed = fixed;
              plan = schedule;
              words = words;
              standing = at_start (run design.now grid.now fixed (W.moves words) schedule)
                  placement.sites;
              ahead = [];
              swaps = [];
              accepted = [];
              redone = 0;
            }) }
    {
        let _moves = schedule.moves();
        let given = Given {
            alloc,
            design,
            grid,
            fixed,
            schedule,
            words,
        };
        let live = first_state(&given, placement)?;
        Anneal::at(given, live)
    }

    /// Creates an annealer that goes on from a snapshot of a run. By contract the snapshot is a lawful one of this design and array. The
    /// new annealer has accepted and redone no move yet, and nothing is judged ahead. An error means that memory ran out.
    pub fn from_point(
        alloc: Global,
        design: &'a Design,
        grid: &'a Grid,
        point: Point,
        words: W,
    ) -> Result<Anneal<'a, W>, AllocError>
        requires point { IsPoint design.now grid.now point }
        ensures { IfOk result (λ a. a ≡ going_on design.now grid.now point words) }
    {
        let Point {
            schedule,
            stage,
            total,
            fixed,
            placement,
        } = point;
        let _moves = schedule.moves();
        let given = Given {
            alloc,
            design,
            grid,
            fixed,
            schedule,
            words,
        };
        let live = state_at(&given, placement, stage, total)?;
        Anneal::at(given, live)
    }

    /// Creates an annealer in this state, with nothing judged, which keeps the numbers of the moves that it accepts.
    fn at(given: Given<'a, W>, live: State) -> Result<Anneal<'a, W>, AllocError>
        requires plan { IsLawful given.schedule }
        requires sound { IsSound (run_for W.moves given) live }
        requires none { noted live.accepted ≡ Some [] }
        ensures { IfOk result (λ a.
            a ≡ record {
              design = given.entry.design.now;
              grid = given.entry.grid.now;
              fixed = given.entry.fixed;
              plan = given.entry.schedule;
              words = given.entry.words;
              standing = standing_of live;
              ahead = [];
              swaps = [];
              accepted = [];
              redone = 0;
            }) }
    {
        let alloc = given.alloc;
        let before = live.total;
        let began = Snapshot::of(&live);
        let pipeline = first_pipeline(&given, live)?;
        match Arc::new(alloc, given) {
            Ok(given) => Ok(Anneal {
                given,
                pipeline,
                before,
                began,
                keeping: PhantomData,
            }),
            Err(_) => Err(AllocError),
        }
    }

    /// The same annealer, but it keeps of the accepted moves what `K` selects. If it no longer keeps their numbers, it frees that memory.
    pub fn keeping<K: Keeping>(self) -> Anneal<'a, W, K>
        ensures { result ≡ self.entry }
    {
        let Anneal {
            given,
            mut pipeline,
            before,
            began,
            keeping: _,
        } = self;
        if !K::keeps() {
            pipeline.owner.state.accepted = None;
        }
        Anneal {
            given,
            pipeline,
            before,
            began,
            keeping: PhantomData,
        }
    }

    /// The numbers of the moves that this value accepted, in order.
    pub fn accepted(&self) -> &[u64]
        ensures { result.now ≡ self.now.accepted }
    {
        match &self.pipeline.owner.state.accepted {
            Some(numbers) => numbers,
            // By contract they are kept.
            None => unreachable!(),
        }
    }
}

impl<'a, W: Words + Drop, K: Keeping> Anneal<'a, W, K> {
    /// A snapshot of the run, for a later run to go on from; `None` after the last move. An error means that memory ran out.
    pub fn point(&self) -> Result<Option<Point>, AllocError>
        ensures none { (result ≡ Ok None) ↔ (self.now.standing.heat ≡ None) }
        ensures tells { IfOk result (λ p. IfSome p (TellsPoint self.now)) }
        ensures stands { IfOk result (λ p. IfSome p (λ p. standing_at p ≡ self.now.standing)) }
        // A run can go on from it.
        ensures lawful { IfOk result (λ p. IfSome p (IsPoint self.now.design self.now.grid)) }
    {
        if self.pipeline.owner.state.ended {
            return Ok(None);
        }
        let point = point_of(&self.given, &self.pipeline.owner.state)?;
        Ok(Some(point))
    }

    /// The snapshot of the run that `point` returns, in the memory of `room`. `room` is a snapshot of a run with the same design, array and
    /// fixed blocks, for example an earlier one of this run. `None` after the last move. Allocates nothing.
    pub fn point_in(&self, room: Point) -> Option<Point>
        requires lawful { IsPoint self.now.design self.now.grid room }
        requires fixed { (b : ℕ) → fixed_at room.fixed b ≡ fixed_at self.now.fixed b }
        ensures none { (result ≡ None) ↔ (self.now.standing.heat ≡ None) }
        ensures tells { IfSome result (TellsPoint self.now) }
        ensures stands { IfSome result (λ p. standing_at p ≡ self.now.standing) }
        // A run can go on from it.
        ensures lawful { IfSome result (IsPoint self.now.design self.now.grid) }
    {
        if self.pipeline.owner.state.ended {
            return None;
        }
        Some(point_in(&self.given, &self.pipeline.owner.state, room))
    }

    /// How many moves of the run are made.
    pub fn done(&self) -> u64
        ensures value { result ≡ self.now.standing.done }
        // The standing is a lawful one of its run.
        ensures lawful { IsStanding (run_of W.moves self.now) self.now.standing }
    {
        self.pipeline.owner.state.done
    }

    /// How many moves of the run were accepted in all.
    pub fn total(&self) -> u64
        ensures { result ≡ self.now.standing.total }
    {
        self.pipeline.owner.state.total
    }

    /// The wire cost of the placement in ten-thousandths: one sum over all nets.
    pub fn cost(&self) -> u64
        ensures { result ≡ cost_of self.now.design self.now.grid self.now.standing.sites }
    {
        self.pipeline.owner.state.cost.cost()
    }

    /// The current placement.
    pub fn placement(&self) -> &Placement
        ensures grid { result.now.grid ≡ self.now.grid }
        ensures sites { result.now.sites ≡ self.now.standing.sites }
        ensures legal { IsLegal self.now.design self.now.grid self.now.fixed
            self.now.standing.sites }
    {
        &self.pipeline.owner.state.placement
    }

    /// The stage of the next move; `None` after the last move.
    pub fn stage(&self) -> Option<Stage>
        ensures { result ≡ stage_of (run_of W.moves self.now) self.now.standing }
    {
        running(&self.given, &self.pipeline.owner.state)
    }

    /// How many moves this value accepted.
    pub fn accepted_count(&self) -> u64
        ensures { result ≡ length self.now.accepted }
    {
        self.total() - self.before
    }

    /// The placement and, if they are kept, the numbers of the moves that this value accepted, in order. Nothing is copied.
    pub fn into_parts(self) -> (Placement, Option<Vec<u64>>)
        ensures grid { result.0.grid ≡ self.entry.grid }
        ensures sites { result.0.sites ≡ self.entry.standing.sites }
        ensures legal { IsLegal self.entry.design self.entry.grid self.entry.fixed
            self.entry.standing.sites }
        ensures numbers { noted result.1 ≡ (if K.numbers then Some self.entry.accepted else None) }
    {
        let Anneal {
            given: _,
            pipeline,
            before: _,
            began: _,
            keeping: _,
        } = self;
        pipeline.into_owner().into_state().into_parts()
    }

    /// The verdicts that were judged ahead, in order of number: for the next moves of the stage, on the placement at the start of the
    /// last turn.
    pub fn ahead(&self) -> &[Verdict]
        ensures numbers { map (λ v. v.k) result.now ≡
            map (λ (v : JudgedMove). v.number) self.now.ahead }
        ensures says { map says result.now ≡ map (λ (v : JudgedMove). v.judged) self.now.ahead }
    {
        &self.pipeline.ahead
    }

    /// How many moves this value redid, because a move accepted before them had touched their footprint. If the owner makes moves alone,
    /// nothing is judged twice, and this counts the moves that turns of the batch would redo. With `KeepsCount`, moves made alone add
    /// nothing to it.
    pub fn redone(&self) -> u64
        ensures { result ≡ self.now.redone }
    {
        self.pipeline.owner.redone
    }

    /// Whether moves are left.
    pub(crate) fn left(&self) -> Turn
        ensures { result ≡ turn_of self.now.standing.heat }
    {
        if self.pipeline.owner.state.ended {
            Turn::Finished
        } else {
            Turn::More
        }
    }

    /// How far the run has come.
    fn reading(&self) -> Reading
        ensures { result ≡ reading_at (run_of W.moves self.now) self.now.standing }
    {
        Reading {
            moves: self.done(),
            accepted: self.total(),
            cost: self.cost(),
        }
    }

    /// Shows on the dial how far the run has come, if more than `before` moves are made.
    pub(crate) fn show_since<R: Wait>(&self, rt: &R, before: u64, dial: &Dial, shower: &mut Shower)
        requires own { shower.old.dial ≡ dial.now }
        ensures dial { shower.new.dial ≡ shower.old.dial }
        ensures some { before < self.now.standing.done →
            shower.new.shown ≡
            shower.old.shown ++ reading_at (run_of W.moves self.now) self.now.standing ∷ [] }
        ensures none { self.now.standing.done ≤ before → shower.new.shown ≡ shower.old.shown }
    {
        if before < self.done() {
            dial.show(rt, shower, self.reading());
        }
    }
}

impl<'a, W: Words + Drop, K: Keeping> Anneal<'a, W, K> {
    /// Makes the next `count` moves of the running stage. The stage must have at least one move left, and at least `count`. The calling
    /// thread judges each move when its turn comes, on the live placement; no move is judged ahead. The moves are made in turns of the
    /// plan's batch (1 to 4,096 moves); the last turn may be shorter. Each turn shows on the dial how far the run has come. If redone moves
    /// are counted, `redone` grows by the number that turns with a crew would have redone, though here nothing is judged twice. The plan's
    /// workers are not used. By contract the shower is one of the plan's dial.
    ///
    /// The gate is called before and after the judgement of each move, and before its commit, all by the calling thread. So a gate that
    /// waits in one call for another waits for ever here. If the gate does nothing, the words of several moves are asked for together,
    /// after one call for all of them. With any other gate, the words of a move are asked for between the calls before and after its
    /// judgement.
    ///
    /// An error means that memory ran out. Then the turns that were made stay, as `done`, `accepted` and `redone` report, and another call
    /// can go on. After either result nothing is judged ahead.
    pub fn make_alone<G: Gate, R: Wait>(
        &mut self,
        rt: &R,
        count: u64,
        plan: &StagePlan<'_, G>,
        shower: &mut Shower,
    ) -> Result<(), AllocError>
        requires some { (count ≤ moves_left (run_of W.moves self.old) self.old.standing) ×
            (0 < moves_left (run_of W.moves self.old) self.old.standing) }
        requires batch { (1 ≤ plan.now.batch) × (plan.now.batch ≤ 4096) }
        requires own { shower.old.dial ≡ plan.now.dial.now }
        ensures made { IsMade W.moves plan.now.batch count self.old self.new result shower.old.shown
            shower.new.shown }
        ensures counted { K.again ≡ true →
            IsMadeByTurns W.moves plan.now.batch count self.old self.new result shower.old.shown
            shower.new.shown }
        ensures uncounted { K.again ≡ false → self.new.redone ≡ self.old.redone }
        ensures dial { shower.new.dial ≡ shower.old.dial }
    {
        let given: &Given<'_, W> = &self.given;
        let moves = MovesPlan {
            rt,
            batch: plan.batch,
            count,
            gate: plan.gate,
            dial: plan.dial,
        };
        let state = &mut self.pipeline;
        if K::tells_redone() {
            return finish_alone::<W, G, Behind<'_, '_, W, G>, Brand, R, true>(
                given, state, &moves, shower,
            );
        }
        finish_alone::<W, G, Behind<'_, '_, W, G>, Brand, R, false>(given, state, &moves, shower)
    }
}

impl<'a, W: Words + Send + Sync + Drop, K: Keeping> Anneal<'a, W, K> {
    /// Makes the next `count` moves of the running stage as [`Anneal::make_alone`] does, while the plan's workers (1 to 64) judge moves
    /// ahead, up to a batch of the stage after the last of the `count` moves. The workers are started for this call, each with a copy of
    /// the placement and its boxes, and have ended when it returns. If the system starts no thread, the calling thread makes the moves
    /// alone. It does so too if there is no memory for the workers and the gate does nothing. By contract the shower is one of the plan's
    /// dial.
    ///
    /// The gate is called before and after the first judgement of each move, by the thread that judges it, and before its commit. If a move
    /// is redone, that is after the call before its commit. If the gate does nothing, a worker judges several moves in a row. With any
    /// other gate, a worker judges one move at a time, and asks for its words between the calls before and after the judgement; and if
    /// there is no memory for the workers, no move is made, and this returns an error. A gate that waits in one call for another waits for
    /// ever if one thread makes both calls: if no thread starts, and for moves that [`Anneal::turn`] judged ahead.
    pub fn make_beside<G: Gate, R: Threads + Wait + Sync>(
        &mut self,
        rt: &R,
        count: u64,
        plan: &StagePlan<'_, G>,
        shower: &mut Shower,
    ) -> Result<(), AllocError>
        requires some { (count ≤ moves_left (run_of W.moves self.old) self.old.standing) ×
            (0 < moves_left (run_of W.moves self.old) self.old.standing) }
        requires batch { (1 ≤ plan.now.batch) × (plan.now.batch ≤ 4096) }
        requires workers { (1 ≤ plan.now.workers) × (plan.now.workers ≤ 64) }
        requires own { shower.old.dial ≡ plan.now.dial.now }
        ensures made { IsMadeByTurns W.moves plan.now.batch count self.old self.new result
            shower.old.shown shower.new.shown }
        ensures dial { shower.new.dial ≡ shower.old.dial }
    {
        finish_beside(rt, &self.given, &mut self.pipeline, plan, count, shower)
    }
}
