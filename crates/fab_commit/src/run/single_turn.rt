//! Turns with a crew of their own, for a caller that makes single turns. A run of the program makes none of these: its crews live for a
//! stage.

ghost use Rattle.std.specs.Prelude.{◌≡◌, ◌≤◌};
ghost use Rattle.fab_commit.specs.Run.Readings.{IsShown};
ghost use Rattle.fab_commit.specs.Run.Turned.{IsTurned};

use crate::run::annealer::Anneal;
use crate::run::crew_turn::turn_beside;
use crate::run::keeping::Keeping;
use crate::run::turn::Turn;
use fab_board::Gate;
use fab_dial::{Dial, Shower};
use fab_site::Words;
use std::alloc::AllocError;
use std::sync::Wait;
use std::thread::Threads;

impl<'a, W: Words + Send + Sync + Drop, K: Keeping> Anneal<'a, W, K> {
    /// Makes the next moves of the running stage, at most `batch` of them (1 to 4,096). Returns `Finished` if no move is left after them.
    ///
    /// While these moves are committed in order of number, `workers` workers (1 to 64) judge the next batch of the stage on the placement
    /// at the turn's start, which does not change meanwhile. Verdicts beyond this batch are discarded. Moves of this batch that have no
    /// verdict are judged before the next batch. A move is redone if a move accepted since its judgement's base has touched its footprint.
    /// The gate is called before and after each judgement that is made ahead, and before each commit. If no worker has taken a move when
    /// its judgement is needed, the calling thread judges it.
    ///
    /// The workers are started for this call, each with a copy of the placement and its boxes. To make many turns, use
    /// [`Anneal::make_beside`], which starts them once.
    ///
    /// An error means that memory ran out. Then the moves that were committed stay, as `done` reports. All workers have ended, nothing is
    /// judged ahead, and another turn can go on. If there was no memory for the workers, no move was made.
    pub fn turn<G: Gate, R: Threads + Wait + Sync>(
        &mut self,
        rt: &R,
        batch: u64,
        workers: u64,
        gate: &G,
    ) -> Result<Turn, AllocError>
        requires batch { (1 ≤ batch) × (batch ≤ 4096) }
        requires workers { (1 ≤ workers) × (workers ≤ 64) }
        ensures turned { IsTurned W.moves batch self.old self.new result }
    {
        turn_beside(rt, &self.given, &mut self.pipeline, batch, workers, gate)?;
        Ok(self.left())
    }

    /// Makes a turn as `turn` does, and then shows on the dial how far the run has come: how many moves were made, how many of them were
    /// accepted, and the cost in ten-thousandths. By contract the shower is one of this dial. Nothing is shown if no move was left, or if
    /// memory ran out (even if the turn made moves).
    pub fn turn_shown<G: Gate, R: Threads + Wait + Sync>(
        &mut self,
        rt: &R,
        batch: u64,
        workers: u64,
        gate: &G,
        dial: &Dial,
        shower: &mut Shower,
    ) -> Result<Turn, AllocError>
        requires batch { (1 ≤ batch) × (batch ≤ 4096) }
        requires workers { (1 ≤ workers) × (workers ≤ 64) }
        requires own { shower.old.dial ≡ dial.now }
        ensures turned { IsTurned W.moves batch self.old self.new result }
        ensures dial { shower.new.dial ≡ shower.old.dial }
        ensures shown { IsShown W.moves self.old self.new result shower.old.shown shower.new.shown }
    {
        let before = self.done();
        let turn = self.turn(rt, batch, workers, gate)?;
        self.show_since(rt, before, dial, shower);
        Ok(turn)
    }
}
