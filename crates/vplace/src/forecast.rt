//! How a run with a stop ends, as far as its schedule determines that before the first move.

ghost use Rattle.std.specs.Prelude.{◌≡◌, ◌≤◌, ◌<◌, ℕ, MatchResult};
ghost use Rattle.fab_commit.specs.Run.Points.{done_at};
ghost use Rattle.fab_run.specs.Setting.{IsAskedPlan};
ghost use Rattle.fab_sched.specs.Annealing.{IsLawful, IsStage, Plan};
ghost use Rattle.vplace.specs.Forecasts.{IsForecast, may_leave};

use crate::messages::OutRole;
use fab_run::{Moves, Options, Point};
use fab_sched::{Cooling, SchedFault, Schedule, moves_of};

/// How a piece of a run ends, as far as its schedule determines that before the first move.
#[derive(Clone, Copy, Debug, PartialEq, Eq)]
pub enum Forecast {
    /// It makes the last move, and meets no stop before that.
    Finishes,
    /// It stops while moves are left.
    Stops,
    /// Either: how many moves there are depends on how many are accepted.
    Either,
}

impl Forecast {
    /// Whether a run of this forecast may leave a file of this role.
    pub fn may_leave(self, role: OutRole) -> bool
        ensures { result ≡ may_leave self role }
    {
        match (self, role) {
            (Forecast::Finishes, OutRole::Point) | (Forecast::Stops, OutRole::Place) => false,
            _ => true,
        }
    }
}

/// The forecast of a piece that begins after `done` moves of a run by this schedule. A stop before the beginning of the piece has no effect
/// on it. With a factor, the schedule alone determines how many moves a run has. If it is adaptive, it gives the most moves that there can
/// be.
pub fn forecast_for(schedule: &Schedule, done: u64, stop: Option<u64>) -> Forecast
    ensures { IsForecast schedule.now done stop result }
{
    let moves = schedule.moves();
    let most = (schedule.last_index() + 1) * moves;
    let Some(stop) = stop else {
        return Forecast::Finishes;
    };
    if stop < done || most <= stop {
        return Forecast::Finishes;
    }
    match schedule.cooling() {
        Cooling::Factor(_) => Forecast::Stops,
        Cooling::Adaptive => Forecast::Either,
    }
}

/// The schedule that the options ask for, for a design with `blocks` blocks. An error means that a number is outside its limits.
pub fn schedule_by(options: &Options, blocks: usize) -> Result<Schedule, SchedFault>
    requires { blocks ≤ 65535 }
    ensures only { (p : Plan) → IsAskedPlan options.now blocks p → IsLawful p →
        MatchResult result (λ s. s ≡ p) (λ e. ⊥) }
{
    let moves = match options.moves {
        Moves::Given(moves) => moves,
        Moves::Inner(inner) => moves_of(inner, blocks as u32)?,
    };
    match options.cooling {
        Cooling::Factor(alpha) => Schedule::new(options.init_t, options.exit_t, alpha, moves),
        Cooling::Adaptive => Schedule::adaptive(options.init_t, options.exit_t, moves),
    }
}

/// How many moves of its run are made at a point.
pub fn moves_made(point: &Point) -> u64
    requires lawful { IsLawful point.now.schedule }
    requires stage { (side : ℕ) × IsStage point.now.schedule side point.now.stage }
    requires left { point.now.stage.done < point.now.schedule.moves }
    ensures { result ≡ done_at point.now }
{
    point.stage.index * point.schedule.moves() + point.stage.done
}
