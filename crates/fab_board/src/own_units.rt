//! Which units of a turn the owner keeps for itself, because the workers are slower than it.

ghost use Rattle.std.specs.Prelude.{◌≡◌, ◌+◌, ◌≤◌, ◌<◌, true, false, min, nat_lt};
ghost use Rattle.fab_board.specs.OwnUnits.{late_with, reviewed, since_review, wanted_after};

/// The owner keeps the first units of each turn for itself. How many depends on how often it has to wait.
#[derive(Clone, Copy)]
pub(crate) struct OwnUnits {
    /// How many units are kept of the turn that is committed now.
    due: u64,
    /// How many units are kept of the turn that was posted last.
    asked: u64,
    /// How many units to keep of each next turn.
    wanted: u64,
    /// Whether the owner had to wait in this turn.
    is_late: bool,
    /// The number of turns, since the last review, in which it had to wait.
    late: u64,
    /// The number of turns since the last review.
    turns: u64,
    ghost bounds: { (turns < 16) × (late ≤ turns) × (wanted ≤ 32768) },
}

/// The number of kept units is reviewed after this many turns.
const TURNS: u64 = 16;

/// A review adds one kept unit if the owner had to wait in at least this many of the `TURNS` turns.
const MANY: u64 = 10;

/// A review takes one kept unit away if the owner had to wait in fewer than this many of the `TURNS` turns.
const FEW: u64 = 4;

/// How many units the owner wants after a review: it wanted `wanted`, and had to wait in `late` turns.
fn reviewed(late: u64, wanted: u64) -> u64
    requires { wanted ≤ 32768 }
    ensures { result ≡ reviewed late wanted }
{
    if late >= MANY {
        wanted + 1
    } else if late < FEW {
        wanted.saturating_sub(1)
    } else {
        wanted
    }
}

impl OwnUnits {
    /// No unit is kept.
    pub(crate) fn none() -> OwnUnits {
        OwnUnits {
            due: 0,
            asked: 0,
            wanted: 0,
            is_late: false,
            late: 0,
            turns: 0,
        }
    }

    /// Begins a turn with `units` units. Returns how many of them the owner keeps.
    pub(crate) fn next_turn(&mut self, units: u64) -> u64
        requires { units ≤ 32768 }
        ensures kept { result ≡
            min (wanted_after self.old.turns (late_with self.old.late self.old.is_late)
            self.old.wanted) units }
        ensures due { self.new.due ≡ self.old.asked }
        ensures asked { self.new.asked ≡ result }
        ensures wanted { self.new.wanted ≡ result }
        ensures punctual { self.new.is_late ≡ false }
        ensures turns { self.new.turns ≡ since_review self.old.turns (self.old.turns + 1) }
        ensures late { self.new.late ≡
            since_review self.old.turns (late_with self.old.late self.old.is_late) }
    {
        let late = self.late + u64::from(self.is_late);
        let turns = self.turns + 1;
        let is_review = turns == TURNS;
        let wanted = if is_review {
            reviewed(late, self.wanted)
        } else {
            self.wanted
        };
        let kept = wanted.min(units);
        *self = OwnUnits {
            due: self.asked,
            asked: kept,
            wanted: kept,
            is_late: false,
            late: if is_review { 0 } else { late },
            turns: if is_review { 0 } else { turns },
        };
        kept
    }

    /// Whether the owner keeps this unit of the turn that is due.
    pub(crate) fn is_kept(&self, unit: u64) -> bool
        ensures { result ≡ nat_lt unit self.now.due }
    {
        unit < self.due
    }

    /// Notes that the owner had to wait in this turn.
    pub(crate) fn was_late(&mut self)
        ensures { self.new ≡ record self.old { is_late = true } }
    {
        self.is_late = true;
    }
}
