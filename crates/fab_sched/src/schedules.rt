//! Schedules, and their stages one after another.

ghost use Rattle.std.specs.Prelude.{◌≡◌, ℕ, ◌↔◌, ◌+◌, ◌*◌, ◌<◌, ◌≤◌, ◌^◌, None, Some, IsOk, IsTrue, IfOk, IfErr, IfSome};
ghost use Rattle.fab_sched.specs.declared.schedules.Cooling.TheVariants.{Factor, Adaptive};
ghost use Rattle.fab_sched.specs.declared.schedules.Stage.{Stage};
ghost use Rattle.fab_sched.specs.Annealing.{GoesOnColder, IsCooling, IsLawful, IsLastIndex, IsStage, MayCoolTo, MayStand, Plan, adaptive_factor, factor_after, fault_of, first_stage, fresh, heat_at, heat_by, hot, is_cooling, is_within, next_range, plan_of, stage_after};

use crate::fault::SchedFault;
use std::marker::Model;

/// How the temperature falls from stage to stage.
#[derive(Clone, Copy, Debug, PartialEq, Eq)]
pub enum Cooling {
    /// By this factor each time, in thousandths.
    Factor(u64),
    /// By VPR's factor, which depends on how many moves of the stage were accepted.
    Adaptive,
}

/// A part of the annealing, at one temperature.
#[derive(Clone, Copy, Debug, PartialEq, Eq)]
pub struct Stage {
    /// The number of the stage, from 0.
    pub index: u64,
    /// The temperature in ten-thousandths, 0 for the frozen stage.
    pub t: u64,
    /// How far a move may go, in thousandths.
    pub range: u64,
    /// How many of its moves have been made.
    pub done: u64,
    /// How many of the moves made so far were accepted.
    pub accepted: u64,
    /// Whether it is the last stage, which accepts no move that raises the cost.
    pub frozen: bool,
}

/// A user's annealing schedule: the first and the last temperature, the cooling, and the moves of a stage.
#[derive(Clone, Copy, Debug, PartialEq, Eq)]
pub struct Schedule {
    init_t: u64,
    exit_t: u64,
    cooling: Cooling,
    moves: u64,
}

impl Model for Schedule {
    ghost use Rattle.fab_sched.specs.Annealing.{Plan, IsLawful, plan_of};

    ghost Value = { Plan };

    ghost view = { λ s. plan_of s.init_t s.exit_t s.cooling s.moves };

    ghost inverse = { λ p.
        record { init_t = p.init; exit_t = p.exit; cooling = p.cooling; moves = p.moves } };

    ghost invariant = { λ s. IsLawful (plan_of s.init_t s.exit_t s.cooling s.moves) };
}

const LARGEST: u64 = 1_073_741_824;

fn is_from_one(high: u64, n: u64) -> bool
    ensures { result ≡ is_within high n }
{
    1 <= n && n <= high
}

fn is_lawful_cooling(cooling: Cooling) -> bool
    ensures { result ≡ is_cooling cooling }
{
    match cooling {
        Cooling::Factor(factor) => is_from_one(999, factor),
        Cooling::Adaptive => true,
    }
}

/// VPR's factor after a stage with this range and this number of accepted moves, in thousandths.
#[tactic(auto, unfolding(crate::specs::Annealing::adaptive_factor))]
fn factor_by_acceptance(moves: u64, range: u64, accepted: u64) -> u64
    requires moves { moves ≤ 1073741824 }
    requires accepted { accepted ≤ moves }
    ensures factor { result ≡ adaptive_factor moves range accepted }
    ensures limits { (1 ≤ result) × (result ≤ 999) }
{
    if 100 * accepted > 96 * moves {
        500
    } else if 100 * accepted > 80 * moves {
        900
    } else if 100 * accepted > 15 * moves || range > 1000 {
        950
    } else {
        800
    }
}

/// A stage before its first move.
fn fresh_stage(index: u64, t: u64, range: u64) -> Stage
    ensures { result ≡ fresh index t range }
{
    Stage {
        index,
        t,
        range,
        done: 0,
        accepted: 0,
        frozen: t == 0,
    }
}

impl Schedule {
    /// A schedule that cools by a factor. Temperatures are 1 to 1,073,741,824 ten-thousandths, `alpha` is 1 to 999
    /// thousandths, and a stage has 1 to 1,073,741,824 moves. The fault is the first number outside its limits.
    pub fn new(init_t: u64, exit_t: u64, alpha: u64, moves: u64) -> Result<Schedule, SchedFault>
        ensures plan { IfOk result (λ s. s ≡ plan_of init_t exit_t (Factor alpha) moves) }
        ensures limits { IsOk result ↔ IsLawful (plan_of init_t exit_t (Factor alpha) moves) }
        ensures fault { IfErr result (λ e.
            fault_of (plan_of init_t exit_t (Factor alpha) moves) ≡ Some e) }
    {
        Schedule::with_cooling(init_t, exit_t, Cooling::Factor(alpha), moves)
    }

    /// A schedule that cools by VPR's factor (`Cooling::Adaptive`). The limits are those of `new`. `AlphaOutOfRange` does not occur.
    pub fn adaptive(init_t: u64, exit_t: u64, moves: u64) -> Result<Schedule, SchedFault>
        ensures plan { IfOk result (λ s. s ≡ plan_of init_t exit_t Adaptive moves) }
        ensures limits { IsOk result ↔ IsLawful (plan_of init_t exit_t Adaptive moves) }
        ensures fault { IfErr result (λ e.
            fault_of (plan_of init_t exit_t Adaptive moves) ≡ Some e) }
    {
        Schedule::with_cooling(init_t, exit_t, Cooling::Adaptive, moves)
    }

    fn with_cooling(
        init_t: u64,
        exit_t: u64,
        cooling: Cooling,
        moves: u64,
    ) -> Result<Schedule, SchedFault>
        ensures plan { IfOk result (λ s. s ≡ plan_of init_t exit_t cooling moves) }
        ensures limits { IsOk result ↔ IsLawful (plan_of init_t exit_t cooling moves) }
        ensures fault { IfErr result (λ e.
            fault_of (plan_of init_t exit_t cooling moves) ≡ Some e) }
    {
        if !is_from_one(LARGEST, init_t) {
            return Err(SchedFault::InitOutOfRange);
        }
        if !is_from_one(LARGEST, exit_t) {
            return Err(SchedFault::ExitOutOfRange);
        }
        if !is_lawful_cooling(cooling) {
            return Err(SchedFault::AlphaOutOfRange);
        }
        if !is_from_one(LARGEST, moves) {
            return Err(SchedFault::MovesOutOfRange);
        }
        Ok(Schedule {
            init_t,
            exit_t,
            cooling,
            moves,
        })
    }

    /// The first temperature, in ten-thousandths.
    pub fn init_t(&self) -> u64
        ensures value { result ≡ self.now.init }
        ensures limits { (1 ≤ result) × (result ≤ 1073741824) }
    {
        self.init_t
    }

    /// The least temperature that is run, in ten-thousandths.
    pub fn exit_t(&self) -> u64
        ensures value { result ≡ self.now.exit }
        ensures limits { (1 ≤ result) × (result ≤ 1073741824) }
    {
        self.exit_t
    }

    /// How the temperature falls.
    pub fn cooling(&self) -> Cooling
        ensures value { result ≡ self.now.cooling }
        ensures limits { IsCooling result }
    {
        self.cooling
    }

    /// The number of moves of a stage.
    pub fn moves(&self) -> u64
        ensures value { result ≡ self.now.moves }
        ensures limits { (1 ≤ result) × (result ≤ 1073741824) }
        ensures lawful { IsLawful self.now }
    {
        self.moves
    }

    /// The temperature of stage `x` in ten-thousandths, 0 for the frozen stage. `None` after the frozen stage, and for every stage of an
    /// adaptive schedule. A run uses [`Schedule::next_stage`] instead; this is for checkpoints of the first version.
    pub fn temperature(&self, x: u64) -> Option<u64>
        ensures { result ≡ heat_at self.now x }
    {
        match self.cooling {
            Cooling::Factor(factor) => self.temperature_by(factor, x),
            Cooling::Adaptive => None,
        }
    }

    /// Whether stage `x` may be at temperature `t`, in ten-thousandths. With a factor, each stage has one temperature. In an adaptive
    /// schedule, `t` may be any temperature that can be reached by falling at least one unit with each stage.
    pub fn may_stand(&self, x: u64, t: u64) -> bool
        ensures { IsTrue result ↔ MayStand self.now x t }
    {
        match self.cooling {
            Cooling::Factor(factor) => self.temperature_by(factor, x) == Some(t),
            Cooling::Adaptive => self.may_cool_to(x, t),
        }
    }

    /// Whether stage `x` may be at temperature `t` if each stage is at least one unit colder than the one before. 0 is the
    /// frozen stage.
    fn may_cool_to(&self, x: u64, t: u64) -> bool
        ensures { IsTrue result ↔ MayCoolTo self.now x t }
    {
        if x == 0 {
            return t == self.hot(self.init_t);
        }
        if self.init_t < self.exit_t || self.init_t - self.exit_t < x - 1 {
            return false;
        }
        t == 0 || (self.exit_t <= t && t <= self.init_t && x <= self.init_t - t)
    }

    /// The greatest index that a stage can have. With a factor, it is the number of hot temperatures. In an adaptive schedule, it is
    /// the greatest number of hot temperatures that there can be.
    #[tactic(auto, using(crate::proofs::Falling::last_of, crate::proofs::Falling::greatest, crate::proofs::Falling::greatest_of, crate::proofs::Falling::reached, crate::proofs::Falling::moves_bound))]
    pub fn last_index(&self) -> u64
        ensures last { IsLastIndex self.now result }
        ensures reached { MayStand self.now result 0 }
        ensures greatest { (x t : ℕ) → MayStand self.now x t → x ≤ result }
        ensures bound { (result + 1) * self.now.moves < 2 ^ 61 }
    {
        match self.cooling {
            Cooling::Factor(factor) => self.frozen_index(factor),
            Cooling::Adaptive => {
                if self.init_t < self.exit_t {
                    0
                } else {
                    self.init_t - self.exit_t + 1
                }
            }
        }
    }

    /// The first stage, on an array whose longer side is `side`.
    pub fn first(&self, side: u16) -> Stage
        requires { (1 ≤ side) × (side ≤ 1000) }
        ensures stage { result ≡ first_stage self.now side }
        ensures lawful { IsStage self.now side result }
    {
        fresh_stage(0, self.hot(self.init_t), 1000 * u64::from(side))
    }

    /// The stage after `stage`, which ended with `accepted` accepted moves, on an array whose longer side is `side`. `None` after the
    /// frozen stage.
    #[tactic(auto, using(crate::proofs::Falling::lawful_on))]
    pub fn next_stage(&self, stage: &Stage, accepted: u64, side: u16) -> Option<Stage>
        requires side { (1 ≤ side) × (side ≤ 1000) }
        requires stage { IsStage self.now side stage.now }
        requires accepted { accepted ≤ self.now.moves }
        ensures stage { result ≡ stage_after self.now side stage.now accepted }
        ensures lawful { IfSome result (IsStage self.now side) }
        ensures falls { IfSome result (λ next. next.t < stage.now.t) }
        ensures ends { (result ≡ None) ↔ IsTrue stage.now.frozen }
    {
        self.following_stage(stage, accepted, side)
    }

    /// The body of `next_stage`. The other clauses of `next_stage` follow from the clause `stage`.
    #[tactic(auto, using(crate::proofs::Falling::index_below, crate::proofs::Falling::heat_below, crate::proofs::Falling::product_fits))]
    fn following_stage(&self, stage: &Stage, accepted: u64, side: u16) -> Option<Stage>
        requires side { (1 ≤ side) × (side ≤ 1000) }
        requires stage { IsStage self.now side stage.now }
        requires accepted { accepted ≤ self.now.moves }
        ensures stage { result ≡ stage_after self.now side stage.now accepted }
        ensures lawful { IsLawful self.now }
    {
        let _moves = self.moves;
        if stage.t == 0 {
            return None;
        }
        let factor = self.factor(stage.range, accepted);
        let t = self.hot(stage.t * factor / 1000);
        let range = self.next_range(side, stage.range, accepted);
        Some(fresh_stage(stage.index + 1, t, range))
    }

    /// Returns `t`, or 0 (the frozen stage) if `t` is below the exit temperature.
    fn hot(&self, t: u64) -> u64
        ensures { result ≡ hot self.now t }
    {
        if t < self.exit_t { 0 } else { t }
    }

    fn factor(&self, range: u64, accepted: u64) -> u64
        requires { accepted ≤ self.now.moves }
        ensures factor { result ≡ factor_after self.now range accepted }
        ensures limits { (1 ≤ result) × (result ≤ 999) }
    {
        match self.cooling {
            Cooling::Factor(factor) => factor,
            Cooling::Adaptive => factor_by_acceptance(self.moves, range, accepted),
        }
    }

    /// The range after a stage with range `range` and `accepted` accepted moves, on an array whose longer side is
    /// `side`, in thousandths. It is defined after the frozen stage too.
    #[tactic(auto, unfolding(crate::specs::Annealing::next_range))]
    pub fn next_range(&self, side: u16, range: u64, accepted: u64) -> u64
        requires side { (1 ≤ side) × (side ≤ 1000) }
        requires range { range ≤ 1000 * side }
        requires accepted { accepted ≤ self.now.moves }
        ensures range { result ≡ next_range self.now side range accepted }
        ensures limits { (1000 ≤ result) × (result ≤ 1000 * side) }
    {
        let wider = range * (560 * self.moves + 1000 * accepted) / (1000 * self.moves);
        wider.min(1000 * u64::from(side)).max(1000)
    }

    #[tactic(auto, using(crate::proofs::Falling::hot_le, crate::proofs::Falling::product_fits, crate::proofs::Falling::cooler, crate::proofs::Falling::next_heat_by, crate::proofs::Falling::none_after))]
    fn temperature_by(&self, factor: u64, x: u64) -> Option<u64>
        requires { factor ≤ 999 }
        ensures { result ≡ heat_by self.now factor x }
    {
        let mut t = self.hot(self.init_t);
        'stages: for index in 0..x {
            if t == 0 {
                return None;
            }
            t = self.hot(t * factor / 1000);
        }
        Some(t)
    }

    /// The index of the frozen stage.
    #[tactic(auto, using(crate::proofs::Falling::hot_le, crate::proofs::Falling::product_fits, crate::proofs::Falling::cooler, crate::proofs::Falling::next_heat_by, crate::proofs::Falling::heat_falls))]
    fn frozen_index(&self, factor: u64) -> u64
        requires { factor ≤ 999 }
        ensures frozen { heat_by self.now factor result ≡ Some 0 }
        ensures bound { result ≤ self.now.init }
    {
        let mut t = self.hot(self.init_t);
        let mut index: u64 = 0;
        'stages: while t > 0 {
            t = self.hot(t * factor / 1000);
            index += 1;
        }
        index
    }
}

/// The law that every run has lawful stages, each colder than the one before, and fewer than 2^61 moves in all.
pub fn stages_are_lawful()
    ensures first { (p : Plan) (side : ℕ) → IsLawful p → 1 ≤ side →
        IsStage p side (first_stage p side) }
    ensures next { (p : Plan) (side : ℕ) (s : Stage) (accepted : ℕ) → IsLawful p → 1 ≤ side →
        IsStage p side s → GoesOnColder p side s accepted }
    ensures few { (p : Plan) (x t : ℕ) → IsLawful p → MayStand p x t → (x + 1) * p.moves < 2 ^ 61 }
{}
