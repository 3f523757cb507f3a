//! The owner's end of a crew: it posts, and takes the answers in order of number.

ghost use Rattle.std.specs.Prelude.{All, ◌≡◌, ℕ, ◌+◌, ◌-◌, ◌<◌, ◌≤◌, List, ◌++◌, ◌∷◌, [], length, true, Some, IfOk, OnOk, OnErr, IfSome, slice_index_or};
ghost use Rattle.std.specs.Arc.{arc_value};
ghost use Rattle.fab_board.specs.Follows.{MayNow, IsAnswerAfter};

use crate::board::{Board, ClaimSeat};
use crate::book::{Front, Naming, Opened};
use crate::claimer::Boarding;
use crate::follow::{Follow, Follower, Origin, Posted, Sheet, judge_unit};
use crate::follow_crew::{Fetched, Hands, Shared, new_shared};
use crate::own_units::OwnUnits;
use crate::plan::Plan;
use std::alloc::{AllocError, Global};
use std::marker::Model;
use std::mem;
use std::sync::{Arc, Wait};

/// The owner's end of a crew. Contracts see two lists: all that it posted, and the posts after which the answers of this turn are judged.
/// These are all but the last.
pub struct Lead<S: Follow<E, T>, E: Drop, T: Drop, J: Naming + Boarding + Origin<S>> {
    shared: Arc<Shared<S, E, T, J>>,
    front: Front<E, J>,
    base: Front<E, J>,
    mine: Follower<S, E, T, J>,
    /// What the last post asks for: the first number, and how many numbers.
    asked: (u64, u64),
    /// What the post before it asks for.
    due: (u64, u64),
    /// How many posts each worker had followed at least, when the owner last looked.
    followed: u64,
    /// The first unit that the owner has not tried to help with.
    helped: u64,
    /// A sheet for a unit that the owner helps with.
    spare: Sheet<S, E, T, J>,
    /// The units that the owner keeps from the workers. `None` if it judges on its own state; then it keeps none.
    own_units: Option<OwnUnits>,
}

impl<S: Follow<E, T>, E: Drop, T: Drop, J: Naming + Boarding + Origin<S>> Model
    for Lead<S, E, T, J> {
    ghost use Rattle.std.specs.Prelude.{List};

    ghost Value = { List E × List E };

    ghost view = { λ l. (l.front, l.base) };
}

impl<S: Follow<E, T>, E: Drop, T: Drop, J: Naming + Boarding + Origin<S>> Lead<S, E, T, J> {
    /// Posts `post`. May return an older post, whose memory can be used for a new one. An error returns `post` itself: the crew did not
    /// get it.
    #[tactic(auto, using(crate::proofs::Placing::latest_push, crate::proofs::Steps::may_push))]
    pub fn post<R: Wait>(&mut self, rt: &R, post: E) -> Result<Option<E>, E>
        requires may { MayNow S.may S.after J.start self.old.0 post }
        ensures posts { OnOk result (self.new.0 ≡ self.old.0 ++ post ∷ []) }
        ensures base { OnOk result (self.new.1 ≡ self.old.0) }
        ensures same { OnErr result (self.new ≡ self.old) }
    {
        let mut front = self.front.again();
        if !front.enter(&self.shared.book, &post) {
            return Err(post);
        }
        let number = self.front.len();
        self.make_room(rt, number);
        self.due = self.asked;
        self.asked = self.mine.asked(&post);
        self.keep_units(number);
        let old = self
            .shared
            .put(rt, number, Posted::new(post, front.again()));
        self.base = mem::replace(&mut self.front, front);
        Ok(old)
    }

    /// Waits until every worker has followed the post whose slot post `number` takes.
    fn make_room<R: Wait>(&mut self, rt: &R, number: u64)
        ensures { self.new ≡ self.old }
    {
        if self.shared.is_room(self.followed, number) {
            return;
        }
        if self.own_units.is_none() {
            self.shared.follow_to(rt, &mut self.mine, number);
        }
        self.shared.wait_for_all(rt, self.shared.goal_for(number));
        self.followed = self.shared.followed_by_all();
    }

    /// From now on the owner's own state follows no post, and the caller has to judge what no worker judges. [`Lead::look`] returns which
    /// numbers these are.
    pub fn leave_to_owner(&mut self)
        ensures { self.new ≡ self.old }
    {
        self.own_units = Some(OwnUnits::none());
    }

    /// Before turn `turn` is posted: keeps some of its units for the owner, so that no worker takes them.
    fn keep_units(&mut self, turn: u64)
        ensures { self.new ≡ self.old }
    {
        let plan = self.shared.plan;
        if let Some(own_units) = &mut self.own_units {
            let kept = own_units.next_turn(plan.units());
            let first = plan.unit_of(turn, 0);
            for i in 0..kept {
                self.shared.keep(first.saturating_add(i));
            }
        }
    }

    /// If a worker has taken the unit of `number`: waits until it is judged, exchanges `sheet` for the sheet with the answer, and returns
    /// 0. If the unit is left to the owner: returns the size of a unit. If `number` is the unit's first, that many numbers from it on are
    /// the owner's. Returns 0 too if this turn did not ask for `number`. If the owner judges on its own state, this does what
    /// [`Lead::seek`] does, and returns 0.
    pub fn look<R: Wait>(&mut self, rt: &R, number: u64, sheet: &mut Sheet<S, E, T, J>) -> u64
        ensures { self.new ≡ self.old }
    {
        if sheet.has(number) && sheet.is_after(&self.base) {
            return 0;
        }
        if self.own_units.is_none() {
            self.seek(rt, number, sheet);
            return 0;
        }
        let Some(unit) = self.unit_of(number) else {
            return 0;
        };
        if self.is_left_to_owner(rt, unit, sheet) {
            self.shared.plan.size()
        } else {
            0
        }
    }

    /// Whether `unit` is left to the owner. If not, waits until it is judged, and exchanges `sheet` for its sheet.
    fn is_left_to_owner<R: Wait>(
        &mut self,
        rt: &R,
        unit: u64,
        sheet: &mut Sheet<S, E, T, J>,
    ) -> bool
        ensures { self.new ≡ self.old }
    {
        let Some(own_units) = &mut self.own_units else {
            return false;
        };
        if own_units.is_kept(unit % self.shared.plan.units().max(1)) {
            return true;
        }
        for _ in rt.forever() {
            match self.shared.fetch(rt, unit, sheet) {
                Fetched::Here => return false,
                Fetched::Mine => return true,
                Fetched::Taken => {
                    own_units.was_late();
                    self.shared.wait_for(rt, unit);
                }
            }
        }
        unreachable!()
    }

    /// The unit of `number`; `None` if this turn did not ask for the number.
    fn unit_of(&self, number: u64) -> Option<u64> {
        let begin = number.saturating_sub(self.due.0);
        let plan = self.shared.plan;
        if number < self.due.0
            || begin >= self.due.1
            || begin >= plan.units().saturating_mul(plan.size())
        {
            return None;
        }
        Some(plan.unit_of(self.base.len().saturating_sub(1), begin))
    }

    /// Exchanges `sheet` for the sheet with the answer for `number`, or judges into it if nobody has taken the number. The answer is on the
    /// state after the posts of this turn's base. Returns false if there is no answer, because the owner's own state gives none.
    pub fn seek<R: Wait>(&mut self, rt: &R, number: u64, sheet: &mut Sheet<S, E, T, J>) -> bool
        ensures same { self.new ≡ self.old }
        ensures after { result ≡ true → sheet.new.0 ≡ self.old.1 }
        ensures has { result ≡ true → (sheet.new.1 ≤ number) ×
            (number - sheet.new.1 < sheet.new.2) }
    {
        if sheet.has(number) && sheet.is_after(&self.base) {
            return true;
        }
        self.fetch(rt, number, sheet);
        if sheet.has(number) && sheet.is_after(&self.base) {
            return true;
        }
        self.judge_here(rt, number, sheet);
        sheet.has(number) && sheet.is_after(&self.base)
    }

    /// The answer for `number`, if the sheet has one that was judged on the state after the posts of this turn's base.
    pub fn answer<'s>(&self, number: u64, sheet: &'s Sheet<S, E, T, J>) -> Option<&'s T>
        ensures { IfSome result (λ x.
            IsAnswerAfter S.after S.answer J.start self.now.1 number x.now) }
    {
        if !sheet.has(number) || !sheet.is_after(&self.base) {
            return None;
        }
        Some(sheet.at(number))
    }

    /// The sheet's answers from `number` on, at most `most` of them. Empty if it has none for `number`, or if they were not judged on the
    /// state after the posts of this turn's base.
    pub fn answers<'s>(&self, number: u64, most: u64, sheet: &'s Sheet<S, E, T, J>) -> &'s [T]
        ensures most { length result.now ≤ most }
        ensures each { (k : ℕ) (d : T) → k < length result.now →
            IsAnswerAfter S.after S.answer J.start self.now.1 (number + k)
            (slice_index_or result.now k d) }
    {
        if !sheet.is_after(&self.base) || !sheet.has(number) {
            return &[];
        }
        sheet.answers(number, most)
    }

    /// Takes the answer for `number` out of the sheet, and leaves `other` in its place. `None` if the sheet has no answer for it that was
    /// judged on the state after the posts of this turn's base. The sheet's answers for later numbers are removed.
    pub fn take(&self, number: u64, sheet: &mut Sheet<S, E, T, J>, other: T) -> Option<T>
        ensures { IfSome result (λ x. IsAnswerAfter S.after S.answer J.start self.now.1 number x) }
    {
        if !(sheet.has(number) && sheet.is_after(&self.base)) {
            return None;
        }
        Some(sheet.take(number, other))
    }

    /// Brings the sheet of the unit of `number`. If nobody has taken the unit, judges it here. While somebody judges it, judges later
    /// units of the turn that nobody has taken.
    fn fetch<R: Wait>(&mut self, rt: &R, number: u64, sheet: &mut Sheet<S, E, T, J>)
        ensures { self.new ≡ self.old }
    {
        let Some(unit) = self.unit_of(number) else {
            return;
        };
        let turn = self.base.len().saturating_sub(1);
        let end = self
            .shared
            .plan
            .unit_of(turn, self.due.1.saturating_sub(1))
            .saturating_add(1);
        for _ in rt.forever() {
            match self.shared.fetch(rt, unit, sheet) {
                Fetched::Here => break,
                Fetched::Mine => {
                    self.judge_own(rt, unit, sheet);
                    break;
                }
                Fetched::Taken => self.help_or_wait(rt, unit, end),
            }
        }
    }

    /// While somebody judges `unit`: judges a later unit before `end` that nobody has taken. If there is none, waits for `unit`.
    fn help_or_wait<R: Wait>(&mut self, rt: &R, unit: u64, end: u64)
        ensures { self.new ≡ self.old }
    {
        let from = self.helped.max(unit.saturating_add(1));
        for other in from..end {
            if self.shared.take(other) {
                self.helped = other.saturating_add(1);
                self.judge_other(rt, other);
                return;
            }
        }
        self.helped = from.max(end);
        self.shared.wait_for(rt, unit);
    }

    /// Judges a unit into the sheet.
    fn judge_own<R: Wait>(&mut self, rt: &R, unit: u64, sheet: &mut Sheet<S, E, T, J>)
        ensures { self.new ≡ self.old }
    {
        let goal = self.base.len();
        if self.shared.follow_to(rt, &mut self.mine, goal) && self.mine.len() == goal {
            self.shared.judge_unit(&mut self.mine, sheet, unit);
        }
    }

    /// Judges a unit that the owner has taken, and puts its sheet into the unit's place.
    fn judge_other<R: Wait>(&mut self, rt: &R, unit: u64)
        ensures { self.new ≡ self.old }
    {
        let goal = self.base.len();
        if self.shared.follow_to(rt, &mut self.mine, goal) && self.mine.len() == goal {
            self.shared
                .judge_unit(&mut self.mine, &mut self.spare, unit);
        }
        self.shared.hand_over(rt, &mut self.spare, unit);
    }

    /// Judges one number here.
    fn judge_here<R: Wait>(&mut self, rt: &R, number: u64, sheet: &mut Sheet<S, E, T, J>)
        ensures { self.new ≡ self.old }
    {
        let goal = self.base.len();
        self.shared.follow_to(rt, &mut self.mine, goal);
        judge_unit(&mut self.mine, number, 1, sheet);
    }

    /// A sheet with no answer, to begin with.
    pub fn sheet(&self, alloc: Global) -> Result<Sheet<S, E, T, J>, AllocError> {
        let places = self.mine.places(alloc, self.shared.plan.size())?;
        Ok(Sheet::new(self.front.again(), places))
    }
}

impl<S: Follow<E, T>, E: Drop, T: Drop, J: Naming + Boarding + Origin<S>> Drop
    for Lead<S, E, T, J> {
    /// Sends the crew home, so that its workers end.
    fn drop(self) {
        let Lead {
            shared,
            front: _,
            base: _,
            mine: _,
            asked: _,
            due: _,
            followed: _,
            helped: _,
            spare: _,
            own_units: _,
        } = self;
        shared.send_home();
    }
}

/// What a crew is made of: a claim board with the seats of its workers, a state for the owner and one for each worker, and how the numbers
/// are cut into units.
pub struct CrewParts<S> {
    pub board: Board,
    pub claims: Vec<ClaimSeat>,
    pub first: S,
    pub others: Vec<S>,
    pub units: Plan,
}

/// Creates a crew whose workers have not begun, and its owner's end. The crew has one worker for each state in `parts.others`. An error
/// means that memory ran out.
pub fn new_crew<S: Follow<E, T>, E: Drop, T: Drop, J: Naming + Boarding + Origin<S>>(
    alloc: Global,
    opened: Opened<E>,
    parts: CrewParts<S>,
) -> Result<(Arc<Shared<S, E, T, J>>, Lead<S, E, T, J>), AllocError>
    requires book { opened ≡ J.book }
    requires board { parts.board.name ≡ J.board }
    requires claims { All (λ s. s.board ≡ J.board) parts.claims.items }
    requires start { J.start ≡ Some parts.first }
    requires starts { All (λ s. J.start ≡ Some s) parts.others.items }
    requires many { length parts.claims.items ≡ length parts.others.items }
    ensures lead { IfOk result (λ r. r.1 ≡ ([], [])) }
    ensures many { IfOk result (λ r. arc_value r.0 ≡ length parts.others.items) }
{
    let CrewParts {
        board,
        claims,
        first,
        others,
        units: plan,
    } = parts;
    let (book, front) = opened.named::<J>();
    let mine = Follower::new(first, front.again());
    let hands = Hands {
        board,
        claims,
        states: others,
        plan,
    };
    let made = new_shared(alloc, book, hands, &mine, &front)?;
    let Ok(crew) = Arc::new(alloc, made) else {
        return Err(AllocError);
    };
    let shared = Arc::try_clone(&crew)?;
    let base = front.again();
    let spare = Sheet::new(front.again(), mine.places(alloc, plan.size())?);
    let lead = Lead {
        shared,
        front,
        base,
        mine,
        asked: (0, 0),
        due: (0, 0),
        followed: 0,
        helped: 0,
        spare,
        own_units: None,
    };
    Ok((crew, lead))
}
