//! The dial and its ends.
ghost use Rattle.std.specs.Prelude.{◌≡◌, ◌<◌, ◌≤◌, [], ◌∷◌, ◌++◌, true, All, IfOk, length};
ghost use Rattle.atomic_table.specs.Seated.{TableId};
ghost use Rattle.crossbeam_utils.specs.Seq.{cell_view};
ghost use Rattle.fab_dial.specs.Models.{ShowerModel, WatcherModel};
ghost use Rattle.fab_dial.specs.Rule.{Loads, shower, watcher};
ghost use Rattle.fab_dial.specs.Shown.{StartsWith, EndsWith};

use crate::readings::Reading;
use crate::rule::{Cell, CellPass, Load, Newcomer, Store, Whole};
use std::alloc::{AllocError, Global};
use std::marker::Model;
use std::sync::Wait;

/// Holds the last reading shown. Contracts see which dial it is.
#[derive(Drop)]
pub struct Dial {
    cell: Cell,
}

impl Model for Dial {
    ghost Value = { TableId };

    ghost view = { λ d. d.cell.table.shared.table_id };

    ghost invariant = { λ d. Unit {0} };
}

/// The one end that shows readings. Contracts see its dial, and the list of all readings shown.
#[derive(Drop)]
pub struct Shower {
    pass: CellPass,
}

impl Model for Shower {
    ghost Value = { ShowerModel };

    ghost view = { λ s. record { dial = s.pass.table_id; shown = (cell_view s.pass).shown } };

    ghost invariant = { λ s.
        (cell_view s.pass ≡ shower (cell_view s.pass).shown) ×
        (0 < length (cell_view s.pass).shown) };
}

/// An end that reads. Contracts see its dial, and the list of readings up to the last one that it read.
#[derive(Drop)]
pub struct Watcher {
    pass: CellPass,
}

impl Model for Watcher {
    ghost Value = { WatcherModel };

    ghost view = { λ w. record { dial = w.pass.table_id; seen = (cell_view w.pass).seen } };

    ghost invariant = { λ w.
        (cell_view w.pass ≡ watcher (cell_view w.pass).seen) ×
        (0 < length (cell_view w.pass).seen) };
}

impl Dial {
    /// Creates a dial that shows `first`, its shower, and `watchers` watchers (0 to 64) that have seen `first`. An error means that memory
    /// ran out.
    pub fn new<R: Wait>(
        rt: &R,
        alloc: Global,
        watchers: u64,
        first: Reading,
    ) -> Result<(Dial, Shower, Vec<Watcher>), AllocError>
        requires few { watchers ≤ 64 }
        ensures shower { IfOk result (λ r. (r.1.dial ≡ r.0) × (r.1.shown ≡ first ∷ [])) }
        ensures count { IfOk result (λ r. length r.2.items ≡ watchers) }
        ensures watchers { IfOk result (λ r.
            All (λ w. (w.dial ≡ r.0) × (w.seen ≡ first ∷ [])) r.2.items) }
    {
        let (cell, mut pass) = Cell::ruled(alloc, first)?;
        let dial = Dial { cell };
        // The rule of a cell starts with an empty list, whatever the cell holds.
        dial.store(rt, &mut pass, first);
        let mut shower = Shower { pass };
        let mut all = Vec::new(alloc);
        for _watcher in 0..watchers {
            all.push(dial.watcher(&mut shower))?;
        }
        Ok((dial, shower, all))
    }

    /// Shows a reading: puts it at the end of the list. By contract the shower is one of this dial.
    pub fn show<R: Wait>(&self, rt: &R, shower: &mut Shower, reading: Reading)
        requires own { shower.old.dial ≡ self.now }
        ensures dial { shower.new.dial ≡ shower.old.dial }
        ensures shown { shower.new.shown ≡ shower.old.shown ++ reading ∷ [] }
    {
        self.store(rt, &mut shower.pass, reading);
    }

    /// Returns the reading that this watcher has now seen last. The list of what it has seen begins with all that it had seen before this
    /// call. By contract the watcher is one of this dial. The reading need not be the newest in time.
    pub fn read<R: Wait>(&self, rt: &R, watcher: &mut Watcher) -> Reading
        requires own { watcher.old.dial ≡ self.now }
        ensures dial { watcher.new.dial ≡ watcher.old.dial }
        ensures seen { StartsWith watcher.new.seen watcher.old.seen }
        ensures last { EndsWith watcher.new.seen result }
    {
        self.load(rt, &mut watcher.pass)
    }

    /// Ends the dial, and returns the last reading shown. What each of `watchers` has seen is a prefix of what was shown. By contract the
    /// shower and the watchers are of this dial. `watchers` may be fewer than were made, or none.
    pub fn gather<R: Wait>(self, rt: &R, mut shower: Shower, mut watchers: Vec<Watcher>) -> Reading
        requires own { shower.dial ≡ self }
        requires watchers { All (λ w. w.dial ≡ self) watchers.items }
        ensures seen { All (λ w. StartsWith shower.shown w.seen) watchers.items }
        ensures last { EndsWith shower.shown result }
    {
        while let Some(watcher) = watchers.pop() {
            self.check(rt, &mut shower, watcher);
        }
        self.load(rt, &mut shower.pass)
    }

    // A watcher that has seen what was shown so far.
    fn watcher(&self, shower: &mut Shower) -> Watcher
        requires own { shower.old.dial ≡ self.now }
        ensures same { shower.new ≡ shower.old }
        ensures watcher { (result.dial ≡ self.now) × (result.seen ≡ shower.old.shown) }
    {
        Watcher {
            pass: self.cell.split_pass::<Newcomer>(&mut shower.pass),
        }
    }

    // The prover sees from this that what a watcher has seen is a prefix of what was shown.
    fn check<R: Wait>(&self, rt: &R, shower: &mut Shower, watcher: Watcher)
        requires shower { shower.old.dial ≡ self.now }
        requires watcher { watcher.dial ≡ self.now }
        ensures same { shower.new ≡ shower.old }
        ensures seen { StartsWith shower.old.shown watcher.seen }
    {
        let Watcher { pass: mut spent } = watcher;
        let whole = self.cell.split_pass::<Whole>(&mut spent);
        let pass = &mut shower.pass;
        self.cell.join_pass::<Whole>(pass, whole);
        self.load(rt, pass);
    }

    fn store<R: Wait>(&self, rt: &R, pass: &mut CellPass, reading: Reading)
        requires own { pass.old.table_id ≡ self.now }
        requires shower { (cell_view pass.old).is_shower ≡ true }
        ensures own { pass.new.table_id ≡ pass.old.table_id }
        ensures shown { cell_view pass.new ≡ shower ((cell_view pass.old).shown ++ reading ∷ []) }
    {
        self.cell.swap_as::<Store, R>(rt, pass, reading);
    }

    fn load<R: Wait>(&self, rt: &R, pass: &mut CellPass) -> Reading
        requires own { pass.old.table_id ≡ self.now }
        requires some_seen { 0 < length (cell_view pass.old).seen }
        ensures own { pass.new.table_id ≡ pass.old.table_id }
        ensures loads { Loads (cell_view pass.old) result result (cell_view pass.new) }
    {
        self.cell.load_as::<Load, R>(rt, pass)
    }
}
