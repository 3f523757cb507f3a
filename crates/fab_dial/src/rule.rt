//! The cell that a dial keeps its reading in, and the rule of that cell.
use crate::readings::Reading;
use atomic_table::{Join, Split};
use crossbeam_utils::atomic::seq_cell::{Pass, RuledSeqCell};
use crossbeam_utils::rule::{Outcome, Protocol};
use std::collections::LinkedList;

/// What a pass knows. It exists only in proofs: no value of it is made.
pub struct View {
    pub is_shower: bool,
    /// What the shower showed; empty for a watcher.
    pub shown: LinkedList<Reading>,
    /// The readings up to the last one that was loaded.
    pub seen: LinkedList<Reading>,
}

/// There is one list of readings, and every pass knows a prefix of it.
pub struct Showing;

impl Protocol<Reading, View> for Showing {
    ghost use Rattle.std.specs.Prelude.{[]};
    ghost use Rattle.fab_dial.specs.Rule.{Kept, shower};

    ghost holds = { Kept };

    ghost first = { shower [] };
}

/// The shower's step.
pub struct Store;

impl Outcome<Reading, View> for Store {
    ghost use Rattle.fab_dial.specs.Rule.{Stores};

    ghost then = { Stores };
}

/// A watcher's step.
pub struct Load;

impl Outcome<Reading, View> for Load {
    ghost use Rattle.fab_dial.specs.Rule.{Loads};

    ghost then = { Loads };
}

/// Splits a new watcher off the shower.
pub struct Newcomer;

impl Split<View> for Newcomer {
    ghost use Rattle.fab_dial.specs.Rule.{watcher};

    ghost left = { λ v. v };

    ghost right = { λ v. watcher v.shown };
}

/// Hands a watcher's view to the shower through a new pass: only a pass that has made no step can be joined.
pub struct Whole;

impl Split<View> for Whole {
    ghost use Rattle.fab_dial.specs.Rule.{nobody};

    ghost left = { λ v. nobody };

    ghost right = { λ v. v };
}

impl Join<View> for Whole {
    ghost use Rattle.fab_dial.specs.Rule.{joined, nobody};

    ghost both = { joined };

    ghost spent = { nobody };
}

pub type Cell = RuledSeqCell<Reading, View, Showing, 3>;

pub type CellPass = Pass<Reading, View>;
