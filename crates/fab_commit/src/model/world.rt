//! Moves are judged ahead and committed, one event at a time. Part of the model: no run executes it.

ghost use Rattle.std.specs.Prelude.{◌≡◌, ◌++◌, [], slice_get, IfOk, OnOk, OnErr};
ghost use Rattle.fab_site.specs.Placement.{IsLegal};
ghost use Rattle.fab_commit.specs.Serial.{at_start};
ghost use Rattle.fab_commit.specs.Run.Commits.{run, run_for};
ghost use Rattle.fab_commit.specs.Model.World.{happens, ways_now, world};
ghost use Rattle.fab_commit.specs.Model.Worlds.{IsReached, IsSameGiven, IsSerial, run_in};

use crate::model::events::{Event, Way};
use crate::model::world_state::{WorldState, first_world, step};
use crate::run::state::{Given, first_state};
use fab_arch::Grid;
use fab_net::Design;
use fab_sched::Schedule;
use fab_site::{Fixed, Placement, Words};
use std::alloc::{AllocError, Global};
use std::marker::Model;

/// Anneals a placement with moves judged ahead, but without workers: the caller decides which event happens next. For any events, the
/// placement is that of moves made one at a time.
pub struct World<'a, W: Words + Drop> {
    given: Given<'a, W>,
    state: WorldState,
}

impl<'a, W: Words + Drop> Model for World<'a, W> {
    ghost use Rattle.fab_commit.specs.Run.Commits.{run, run_for};
    ghost use Rattle.fab_commit.specs.Model.Worlds.{IsReached, IsWhole, WorldOf, world_of};

    ghost Value = { WorldOf W };

    ghost view = { λ w. record {
      design = w.given.design.now;
      grid = w.given.grid.now;
      fixed = w.given.fixed;
      plan = w.given.schedule;
      words = w.given.words;
      world = world_of w.state;
      ways = w.state.ways.items;
    } };

    ghost invariant = { λ w.
        IsWhole (run_for W.moves w.given) w.state ×
        IsReached (run_for W.moves w.given) (world_of w.state) w.state.ways.items };
}

impl<'a, W: Words + Drop> Drop for World<'a, W> {
    // This is one call wherever a world goes out of scope. A derived `drop` would be proved again at each place.
    fn drop(self) {
        let World { given: _, state: _ } = self;
    }
}

impl<'a, W: Words + Drop> World<'a, W> {
    /// Creates a world before the first move, with this placement. By contract the placement is a legal one of the array. The older
    /// placement is the same, and nothing is claimed, judged or accepted. An error means that memory ran out.
    pub fn new(
        alloc: Global,
        design: &'a Design,
        grid: &'a Grid,
        placement: Placement,
        fixed: Fixed,
        schedule: Schedule,
        words: W,
    ) -> Result<World<'a, W>, AllocError>
        requires legal { IsLegal design.now grid.now fixed placement.sites }
        ensures { IfOk result (λ w.
            w ≡ record {
              design = design.now;
              grid = grid.now;
              fixed = fixed;
              plan = schedule;
              words = words;
              world = world
                  (at_start (run design.now grid.now fixed (W.moves words) schedule)
                  placement.sites);
              ways = [];
            }) }
    {
        let _moves = schedule.moves();
        let given = Given {
            alloc,
            design,
            grid,
            fixed,
            schedule,
            words,
        };
        let live = first_state(&given, placement)?;
        let state = first_world(alloc, live)?;
        Ok(World { given, state })
    }

    /// Applies an event. An event that does not apply changes nothing. An error means that memory ran out; then everything stays as it was.
    pub fn step(&mut self, event: Event) -> Result<(), AllocError>
        ensures same { IsSameGiven self.old self.new }
        ensures step { OnOk result
            (self.new.world ≡ happens (run_in W.moves self.old) self.old.world event) }
        ensures ways { OnOk result
            (self.new.ways ≡
            self.old.ways ++ ways_now (run_in W.moves self.old) self.old.world event) }
        ensures unchanged { OnErr result (self.new ≡ self.old) }
    {
        step(self.given.alloc, &self.given, &mut self.state, event)
    }

    /// How many moves are made.
    pub fn done(&self) -> u64
        ensures value { result ≡ self.now.world.live.done }
        // Some list of events leads here from a first placement.
        ensures reached { IsReached (run_in W.moves self.now) self.now.world self.now.ways }
        // The live standing is the one that moves made one at a time lead to.
        ensures serial { IsSerial (run_in W.moves self.now) self.now.world.live self.now.ways }
    {
        self.state.live.done
    }

    /// How many moves were accepted in all.
    pub fn total(&self) -> u64
        ensures { result ≡ self.now.world.live.total }
    {
        self.state.live.total
    }

    /// The current placement.
    pub fn placement(&self) -> &Placement
        ensures grid { result.now.grid ≡ self.now.grid }
        ensures sites { result.now.sites ≡ self.now.world.live.sites }
        ensures legal { IsLegal self.now.design self.now.grid self.now.fixed
            self.now.world.live.sites }
    {
        &self.state.live.placement
    }

    /// How a move got its answer; `None` if it is not made yet.
    pub fn committed(&self, number: u64) -> Option<Way>
        ensures { result ≡ slice_get self.now.ways number }
    {
        if number < self.state.ways.len() as u64 {
            Some(self.state.ways[number as usize])
        } else {
            None
        }
    }
}
