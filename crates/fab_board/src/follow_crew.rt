//! The threads of a crew. Each worker has a state of its own, follows what the owner posts, and judges units of numbers that it claims on
//! the board.

ghost use Rattle.std.specs.Prelude.{All, ◌≡◌, ℕ, ◌+◌, ◌<◌, ◌≤◌, List, [], length, true, Some, IfOk, IfSome, IsPermutation, vec_len};
ghost use Rattle.std.specs.List.{range_with_len};
ghost use Rattle.std.specs.Fn.{CalledAtMut};
ghost use Rattle.std.specs.Thread.{IsSync};
ghost use Rattle.fab_board.specs.Views.{all_numbers};

use crate::board::{Board, ClaimSeat, Claims};
use crate::book::{Book, Front, Naming};
use crate::claimer::{Boarding, Claimer, CrewBoard};
use crate::follow::{Follow, Follower, Origin, Posted, Sheet, judge_unit};
use crate::plan::Plan;
use crate::waiting::{PaddedAtomic, look_past, store_and_wake, wait_past};
use std::alloc::{AllocError, Global};
use std::marker::Model;
use std::sync::atomic::{AtomicU64, Ordering};
use std::sync::{Arc, Mutex, RwLock, Wait};
use std::thread::{Threads, join_mut};
use std::{mem, thread};

/// Where the sheet of a judged unit waits for the owner, or a used sheet for a worker.
#[derive(Drop)]
pub(crate) struct Place<S: Follow<E, T>, E: Drop, T: Drop, J: Naming + Boarding + Origin<S>> {
    /// Which unit was taken here last, and whether it is judged. It only grows.
    word: AtomicU64,
    sheet: Mutex<Sheet<S, E, T, J>>,
    room: [u64; 8],
}

/// What a worker begins with.
#[derive(Drop)]
struct Kit<S: Follow<E, T>, E: Drop, T: Drop, J: Naming + Boarding + Origin<S>> {
    follower: Follower<S, E, T, J>,
    sheet: Sheet<S, E, T, J>,
    claimer: Claimer<J>,
}

/// A worker's place in the crew.
#[derive(Drop)]
struct WorkerSlot<S: Follow<E, T>, E: Drop, T: Drop, J: Naming + Boarding + Origin<S>> {
    /// What the worker begins with, until it begins or is left out.
    start: Mutex<Option<Kit<S, E, T, J>>>,
    /// The same, once the worker has ended or is left out.
    end: Mutex<Option<Kit<S, E, T, J>>>,
    /// How many posts the worker has followed.
    followed: PaddedAtomic,
}

/// What the threads of a crew share.
#[derive(Drop)]
pub struct Shared<S: Follow<E, T>, E: Drop, T: Drop, J: Naming + Boarding + Origin<S>> {
    pub(crate) book: Book<E, J>,
    crew_board: CrewBoard<J>,
    pub(crate) plan: Plan,
    posts: Vec<RwLock<Option<Posted<S, E, T, J>>>>,
    places: Vec<Place<S, E, T, J>>,
    workers: Vec<WorkerSlot<S, E, T, J>>,
    /// Room for the seats of the claim board, once the workers have ended. Threads do not share seats, so it has a lock.
    room: Mutex<Vec<ClaimSeat>>,
    /// How many posts there are.
    posted: PaddedAtomic,
    /// How many claims were made, at least.
    claimed: PaddedAtomic,
    asleep: PaddedAtomic,
    owner_asleep: PaddedAtomic,
    /// Start barrier: counts each worker when it starts or is left out, and once more when it wakes from the barrier.
    begun: PaddedAtomic,
    /// Start barrier: how many workers have gone to sleep there, or are about to.
    slept: PaddedAtomic,
    stop: PaddedAtomic,
}

impl<S: Follow<E, T>, E: Drop, T: Drop, J: Naming + Boarding + Origin<S>> Model
    for Shared<S, E, T, J> {
    ghost use Rattle.std.specs.Prelude.{ℕ, length};

    /// How many workers it has.
    ghost Value = { ℕ };

    ghost view = { λ c. length c.workers.items };
}

/// What the owner finds when it looks for a unit.
#[derive(Clone, Copy, PartialEq, Eq)]
pub(crate) enum Fetched {
    /// The unit is judged, and its sheet is here.
    Here,
    /// Somebody judges it.
    Taken,
    /// Nobody had taken it; now the owner has.
    Mine,
}

/// The word of a place whose unit somebody has taken.
fn taken(unit: u64) -> u64 {
    unit.min(1 << 61) * 2 + 1
}

/// The word of a place whose unit is judged, or is the owner's.
fn ready(unit: u64) -> u64 {
    unit.min(1 << 61) * 2 + 2
}

/// The count of followed posts of a worker that has ended or is left out. Sleepers compare the low 32 bits of a word; no real count has
/// the low 32 bits of this one.
const GONE: u64 = u64::MAX;

/// How many posts may wait for a late worker: the ring has this many slots.
const POSTS: u64 = 64;

/// How many turns have places at a time.
const TURNS: u64 = 4;

impl<S: Follow<E, T>, E: Drop, T: Drop, J: Naming + Boarding + Origin<S>> Shared<S, E, T, J> {
    /// The place of a unit.
    fn place_of(&self, unit: u64) -> Option<&Place<S, E, T, J>> {
        let ring = self.plan.units().saturating_mul(TURNS).max(1);
        self.places.get((unit % ring) as usize)
    }

    /// Follows the next post of the ring. Returns whether it could.
    fn follow_next<R: Wait>(&self, rt: &R, by: &mut Follower<S, E, T, J>) -> bool
        ensures { result ≡ true → length by.new ≡ length by.old + 1 }
    {
        let Some(slot) = self.posts.get((by.len() % POSTS) as usize) else {
            return false;
        };
        let guard = slot.read(rt);
        match &*guard {
            Some(posted) => by.follow(posted),
            None => false,
        }
    }

    /// Follows posts until `by` has followed `goal` of them. Returns whether it could.
    pub(crate) fn follow_to<R: Wait>(
        &self,
        rt: &R,
        by: &mut Follower<S, E, T, J>,
        goal: u64,
    ) -> bool {
        let from = by.len();
        for _ in from..goal {
            if !self.follow_next(rt, by) {
                return false;
            }
        }
        true
    }

    /// Judges `unit`. The post of its turn is the one that `by` followed last.
    pub(crate) fn judge_unit(
        &self,
        by: &mut Follower<S, E, T, J>,
        sheet: &mut Sheet<S, E, T, J>,
        unit: u64,
    )
        ensures { by.new ≡ by.old }
    {
        let begin = self.plan.begin_of(unit);
        judge_unit(
            by,
            by.first().saturating_add(begin),
            self.count_of(by, unit),
            sheet,
        );
    }

    /// How many numbers `unit` has. The post of its turn is the one that `by` followed last.
    pub(crate) fn count_of(&self, by: &Follower<S, E, T, J>, unit: u64) -> u64 {
        by.count()
            .saturating_sub(self.plan.begin_of(unit))
            .min(self.plan.size())
    }

    /// Takes `unit`, unless somebody has taken it before. Returns whether it did.
    pub(crate) fn take(&self, unit: u64) -> bool {
        let Some(place) = self.place_of(unit) else {
            return false;
        };
        let seen = place.word.load(Ordering::SeqCst);
        if seen >= taken(unit) {
            return false;
        }
        place
            .word
            .compare_exchange(seen, taken(unit), Ordering::SeqCst, Ordering::SeqCst)
            .is_ok()
    }

    /// Puts the judged sheet of `unit` into the unit's place, and takes the used sheet from there.
    pub(crate) fn hand_over<R: Wait>(&self, rt: &R, sheet: &mut Sheet<S, E, T, J>, unit: u64) {
        if let Some(place) = self.place_of(unit) {
            mem::swap(&mut *place.sheet.lock(rt), sheet);
            store_and_wake(&place.word, ready(unit), &self.owner_asleep);
        }
    }

    /// Waits until the turn of `unit`, which the worker has claimed, is posted, and follows its post. If `unit` is `None`, the turn is that
    /// of the next unit that nobody has claimed. Returns false if the crew was sent home.
    ///
    /// A worker that waits here has followed all that is posted. Before the owner posts again, it may wait for that.
    fn wait_for_turn<R: Wait>(
        &self,
        rt: &R,
        followed: &PaddedAtomic,
        by: &mut Follower<S, E, T, J>,
        unit: Option<u64>,
    ) -> bool {
        for _ in rt.forever() {
            let posted = self.posted.load();
            if self.stop.load() != 0 {
                return false;
            }
            let turn = self.plan.turn_of(unit.unwrap_or(self.claimed.load()));
            let goal = turn.saturating_add(1).min(posted);
            if by.len() < goal {
                if !self.follow_to(rt, by, goal) {
                    return false;
                }
                self.tell_followed(followed, by.len());
            }
            if turn < posted {
                return true;
            }
            wait_past(rt, &self.posted.word, &self.asleep, posted);
        }
        unreachable!()
    }

    /// Claims units and judges them, until the crew is sent home.
    fn work_on<R: Wait>(&self, rt: &R, followed: &PaddedAtomic, kit: &mut Kit<S, E, T, J>) {
        for _ in rt.forever() {
            if !self.wait_for_turn(rt, followed, &mut kit.follower, None) {
                return;
            }
            let Some(unit) = self.crew_board.claim(&mut kit.claimer) else {
                return;
            };
            self.claimed.add_one();
            if !self.wait_for_turn(rt, followed, &mut kit.follower, Some(unit)) {
                return;
            }
            // The last units of a short turn are empty.
            if self.count_of(&kit.follower, unit) > 0 && self.take(unit) {
                self.judge_unit(&mut kit.follower, &mut kit.sheet, unit);
                self.hand_over(rt, &mut kit.sheet, unit);
            }
        }
    }

    /// Tells the owner how many posts a worker has followed. The owner may be asleep until then.
    fn tell_followed(&self, followed: &PaddedAtomic, posts: u64) {
        store_and_wake(&followed.word, posts, &self.owner_asleep);
    }

    /// Counts a worker that begins, is left out, or is awake again. Returns how many were counted before.
    fn count_begun(&self) -> u64 {
        let before = self.begun.word.fetch_add(1, Ordering::SeqCst);
        if before.saturating_add(1) >= self.workers.len() as u64 {
            self.begun.word.wake_all();
        }
        before
    }

    /// Sleeps until `begun` is at least `goal`.
    fn sleep_until_begun<R: Wait>(&self, rt: &R, goal: u64) {
        for _ in rt.forever() {
            let begun = self.begun.load();
            if begun >= goal {
                return;
            }
            self.begun.word.park(rt, (begun % 4294967296) as u32);
        }
    }

    /// Counts this worker, and sleeps until all have begun or are left out. The last one to begin sleeps until a sleeper is awake again.
    /// A thread just started may share a processor with another for some milliseconds. One that is woken mostly gets its own.
    fn begin_together<R: Wait>(&self, rt: &R) {
        let all = self.workers.len() as u64;
        if self.count_begun().saturating_add(1) < all {
            self.slept.add_one();
            self.sleep_until_begun(rt, all);
            self.count_begun();
        } else if self.slept.load() > 0 {
            self.sleep_until_begun(rt, all.saturating_add(1));
        }
    }

    /// All that a worker does, from its start to its end.
    fn work<R: Wait>(&self, rt: &R, me: usize) {
        let Some(worker) = self.workers.get(me) else {
            return;
        };
        let taken = worker.start.lock(rt).take();
        if let Some(mut kit) = taken {
            self.begin_together(rt);
            self.work_on(rt, &worker.followed, &mut kit);
            *worker.end.lock(rt) = Some(kit);
        }
        self.tell_followed(&worker.followed, GONE);
    }

    /// The least number of posts that any worker has followed.
    pub(crate) fn followed_by_all(&self) -> u64 {
        let mut least = GONE;
        for worker in &self.workers {
            least = least.min(worker.followed.load());
        }
        least
    }

    /// Waits until each worker has followed at least `goal` posts. If the system is slow to start a worker's thread, or refuses to, the
    /// worker is left out. All workers together get only the time of one to begin.
    pub(crate) fn wait_for_all<R: Wait>(&self, rt: &R, goal: u64) {
        self.leave_out_late(rt);
        for worker in &self.workers {
            self.wait_for_one(rt, &worker.followed, goal);
        }
    }

    /// Leaves out the workers that do not begin in time. A worker that has begun may sleep until all have. So the owner does this before it
    /// waits for any worker.
    fn leave_out_late<R: Wait>(&self, rt: &R) {
        let mut has_time = true;
        for worker in &self.workers {
            if worker.followed.load() == 0 {
                has_time = has_time && look_past(&worker.followed.word, 0) != 0;
                if !has_time {
                    self.leave_out(rt, worker);
                }
            }
        }
    }

    /// If the worker has not begun, takes what it begins with, so that it never begins.
    fn leave_out<R: Wait>(&self, rt: &R, worker: &WorkerSlot<S, E, T, J>) {
        let taken = worker.start.lock(rt).take();
        if let Some(kit) = taken {
            *worker.end.lock(rt) = Some(kit);
            self.tell_followed(&worker.followed, GONE);
            self.count_begun();
        }
    }

    /// Leaves out a worker whose thread was not started.
    fn go_without<R: Wait>(&self, rt: &R, me: usize) {
        if let Some(worker) = self.workers.get(me) {
            self.leave_out(rt, worker);
        }
    }

    /// Waits until a worker has followed at least `goal` posts.
    fn wait_for_one<R: Wait>(&self, rt: &R, followed: &PaddedAtomic, goal: u64) {
        let mut seen = followed.load();
        for _ in rt.forever() {
            if seen >= goal {
                return;
            }
            seen = wait_past(rt, &followed.word, &self.owner_asleep, seen);
        }
    }

    /// Puts a post into the ring, and returns the post whose slot it takes.
    pub(crate) fn put<R: Wait>(
        &self,
        rt: &R,
        number: u64,
        posted: Posted<S, E, T, J>,
    ) -> Option<E> {
        let mut old = Some(posted);
        if let Some(slot) = self.posts.get((number % POSTS) as usize) {
            mem::swap(&mut *slot.write(rt), &mut old);
        }
        store_and_wake(&self.posted.word, number.saturating_add(1), &self.asleep);
        match old {
            Some(posted) => Some(posted.into_post()),
            None => None,
        }
    }

    /// If the unit is judged, exchanges `sheet` for the unit's sheet. If nobody has taken the unit, takes it for the owner.
    pub(crate) fn fetch<R: Wait>(
        &self,
        rt: &R,
        unit: u64,
        sheet: &mut Sheet<S, E, T, J>,
    ) -> Fetched {
        let Some(place) = self.place_of(unit) else {
            return Fetched::Mine;
        };
        let seen = place.word.load(Ordering::SeqCst);
        if seen >= ready(unit) {
            mem::swap(&mut *place.sheet.lock(rt), sheet);
            return Fetched::Here;
        }
        if seen == taken(unit) {
            return Fetched::Taken;
        }
        let mine = place
            .word
            .compare_exchange(seen, ready(unit), Ordering::SeqCst, Ordering::SeqCst);
        match mine {
            Ok(_) => Fetched::Mine,
            Err(_) => Fetched::Taken,
        }
    }

    /// Keeps `unit` for the owner, so that no worker takes it. Its turn is not posted yet.
    pub(crate) fn keep(&self, unit: u64) {
        if let Some(place) = self.place_of(unit) {
            place.word.store(ready(unit), Ordering::SeqCst);
        }
    }

    /// Waits until a unit that somebody has taken is judged.
    pub(crate) fn wait_for<R: Wait>(&self, rt: &R, unit: u64) {
        if let Some(place) = self.place_of(unit) {
            wait_past(rt, &place.word, &self.owner_asleep, taken(unit));
        }
    }

    /// Whether post `number` has a slot, if each worker has followed at least `followed` posts.
    pub(crate) fn is_room(&self, followed: u64, number: u64) -> bool {
        followed.saturating_add(POSTS) > number
    }

    /// How many posts all workers must have followed before post `number` has a slot.
    pub(crate) fn goal_for(&self, number: u64) -> u64 {
        number.saturating_sub(POSTS).saturating_add(1)
    }

    /// Sends the crew home, so that its workers end.
    pub(crate) fn send_home(&self) {
        self.stop.store(1);
        self.posted.add_one();
        self.posted.word.wake_all();
    }
}

/// The ring of places, each with a sheet.
fn all_places<S: Follow<E, T>, E: Drop, T: Drop, J: Naming + Boarding + Origin<S>>(
    alloc: Global,
    by: &Follower<S, E, T, J>,
    front: &Front<E, J>,
    plan: Plan,
) -> Result<Vec<Place<S, E, T, J>>, AllocError> {
    let mut places = Vec::new(alloc);
    for _ in 0..plan.units().saturating_mul(TURNS) {
        places.push(Place {
            word: AtomicU64::new(0),
            sheet: Mutex::new(Sheet::new(front.again(), by.places(alloc, plan.size())?)),
            room: [0; 8],
        })?;
    }
    Ok(places)
}

fn all_posts<S: Follow<E, T>, E: Drop, T: Drop, J: Naming + Boarding + Origin<S>>(
    alloc: Global,
) -> Result<Vec<RwLock<Option<Posted<S, E, T, J>>>>, AllocError> {
    let mut posts = Vec::new(alloc);
    for _ in 0..POSTS {
        posts.push(RwLock::new(None))?;
    }
    Ok(posts)
}

fn new_worker<S: Follow<E, T>, E: Drop, T: Drop, J: Naming + Boarding + Origin<S>>(
    alloc: Global,
    state: S,
    seat: ClaimSeat,
    front: &Front<E, J>,
    plan: Plan,
) -> Result<WorkerSlot<S, E, T, J>, AllocError>
    requires start { J.start ≡ Some state }
    requires seat { seat.board ≡ J.board }
    requires empty { front.now ≡ [] }
{
    let follower = Follower::new(state, front.again());
    let sheet = Sheet::new(front.again(), follower.places(alloc, plan.size())?);
    Ok(WorkerSlot {
        start: Mutex::new(Some(Kit {
            follower,
            sheet,
            claimer: Claimer::new(seat),
        })),
        end: Mutex::new(None),
        followed: PaddedAtomic::new(0),
    })
}

/// A worker's place for each state, and the list of the board's seats, which is empty now and has room for them.
fn all_workers<S: Follow<E, T>, E: Drop, T: Drop, J: Naming + Boarding + Origin<S>>(
    alloc: Global,
    mut states: Vec<S>,
    mut claims: Vec<ClaimSeat>,
    front: &Front<E, J>,
    plan: Plan,
) -> Result<(Vec<WorkerSlot<S, E, T, J>>, Vec<ClaimSeat>), AllocError>
    requires start { All (λ s. J.start ≡ Some s) states.items }
    requires claims { All (λ s. s.board ≡ J.board) claims.items }
    requires many { length claims.items ≡ length states.items }
    requires empty { front.now ≡ [] }
    ensures many { IfOk result (λ r. length r.0.items ≡ length states.items) }
{
    let mut workers = Vec::new(alloc);
    while let Some(state) = states.pop() {
        let Some(claim) = claims.pop() else {
            unreachable!()
        };
        workers.push(new_worker(alloc, state, claim, front, plan)?)?;
    }
    Ok((workers, claims))
}

/// What the workers of a crew are made of: a seat of the claim board and a state for each, and how the numbers are cut into units.
pub(crate) struct Hands<S> {
    pub(crate) board: Board,
    pub(crate) claims: Vec<ClaimSeat>,
    pub(crate) states: Vec<S>,
    pub(crate) plan: Plan,
}

/// What the threads of a crew share, before any worker has begun. There is a worker for each state of `hands`, with a seat of the board.
pub(crate) fn new_shared<S: Follow<E, T>, E: Drop, T: Drop, J: Naming + Boarding + Origin<S>>(
    alloc: Global,
    book: Book<E, J>,
    hands: Hands<S>,
    by: &Follower<S, E, T, J>,
    front: &Front<E, J>,
) -> Result<Shared<S, E, T, J>, AllocError>
    requires board { hands.board.name ≡ J.board }
    requires claims { All (λ s. s.board ≡ J.board) hands.claims.items }
    requires starts { All (λ s. J.start ≡ Some s) hands.states.items }
    requires many { length hands.claims.items ≡ length hands.states.items }
    requires empty { front.now ≡ [] }
    ensures many { IfOk result (λ c. c ≡ length hands.states.items) }
{
    let Hands {
        board,
        claims,
        states,
        plan,
    } = hands;
    let posts = all_posts(alloc)?;
    let places = all_places(alloc, by, front, plan)?;
    let (workers, room) = all_workers(alloc, states, claims, front, plan)?;
    Ok(Shared {
        book,
        crew_board: CrewBoard::new(board),
        plan,
        posts,
        places,
        workers,
        room: Mutex::new(room),
        posted: PaddedAtomic::new(0),
        claimed: PaddedAtomic::new(0),
        asleep: PaddedAtomic::new(0),
        owner_asleep: PaddedAtomic::new(0),
        begun: PaddedAtomic::new(0),
        slept: PaddedAtomic::new(0),
        stop: PaddedAtomic::new(0),
    })
}

/// Runs the workers of a crew: one in this thread, and each other one in its own. Returns when the crew was sent home and all have ended.
/// If the system refuses to start a worker, the others do its work.
fn work_all<
    S: Follow<E, T> + Send,
    E: Drop + Send + Sync,
    T: Drop + Send,
    J: Naming + Boarding + Origin<S> + Send + Sync,
    R: Threads + Wait + Sync,
>(rt: &R, crew: &Shared<S, E, T, J>) {
    let workers = crew.workers.len();
    thread::scope(thread::scope_env(), rt, |scope| {
        for me in 1..workers {
            if scope.spawn(move || crew.work(rt, me)).is_err() {
                crew.go_without(rt, me);
            }
        }
        crew.work(rt, 0);
    });
}

// A closure that calls another one with a borrowed argument cannot be proved; this function can.
fn called<O, X, F: FnMut(&mut O) -> X>(make: &mut F, owner: &mut O) -> X
    requires { (x : _) → x.now ≡ owner.old → F.pre make.old x }
    ensures { CalledAtMut F.FnMut make.old owner.old result make.new owner.new }
{
    make(owner)
}

/// Runs `make` on the owner while the workers of the crew work, each in a thread of its own. Then sends the crew home, and returns when all
/// workers have ended. So it returns if `make` and the judgements of the workers return. If the system starts no thread, the owner judges
/// alone.
// The owner's type is a parameter, since the threads' closures do not support a type that both borrows and has parameters.
pub fn beside<
    S: Follow<E, T> + Send,
    E: Drop + Send + Sync,
    T: Drop + Send,
    J: Naming + Boarding + Origin<S> + Send + Sync,
    O,
    X,
    F: FnMut(&mut O) -> X,
    R: Threads + Wait + Sync,
>(rt: &R, crew: &Shared<S, E, T, J>, owner: &mut O, make: &mut F) -> X
    requires { (x : _) → x.now ≡ owner.old → F.pre make.old x }
    ensures { CalledAtMut F.FnMut make.old owner.old result make.new owner.new }
{
    let (_, made) = join_mut(
        rt,
        &mut || -> ()
            requires { IsSync R.row }
        { work_all(rt, crew) },
        &mut || -> X
            requires { (x : _) → x.now ≡ owner.now → F.pre make.now x }
            ensures { CalledAtMut F.FnMut make.entry.now owner.entry.now result make.exit.now
                owner.exit.now }
        {
            let made = called(make, owner);
            crew.send_home();
            made
        },
    );
    made
}

/// The claim board of a crew that has ended, with the seats of all its workers. Contracts see the numbers that the workers claimed.
pub struct Retired {
    board: Board,
    seats: Vec<ClaimSeat>,
}

impl Model for Retired {
    ghost use Rattle.std.specs.Prelude.{◌≡◌, All, List, ℕ, length};
    ghost use Rattle.fab_board.specs.Views.{all_numbers};

    ghost Value = { List ℕ };

    ghost view = { λ r. all_numbers r.seats.items };

    ghost invariant = { λ r.
        (length r.seats.items ≡ r.board.seats) × All (λ s. s.board ≡ r.board.name) r.seats.items };
}

impl Retired {
    /// Closes the board, and returns how many units of work were claimed. The workers together claimed the units below that number, each
    /// once.
    pub fn close(self) -> Claims
        ensures { IsPermutation (range_with_len 0 result.taken) self }
    {
        let Retired { board, seats } = self;
        board.close(seats)
    }
}

/// The claim board of a crew whose workers have ended, with all their seats. `None` if a worker is still at work.
pub fn retire<S: Follow<E, T>, E: Drop, T: Drop, J: Naming + Boarding + Origin<S>>(
    crew: Arc<Shared<S, E, T, J>>,
) -> Option<Retired> {
    let Ok(crew) = Arc::try_unwrap(crew) else {
        return None;
    };
    let (crew_board, workers, room) = crew.into_parts();
    let board = crew_board.into_board();
    let seats = seats_of(workers, room)?;
    if seats.len() as u64 != board.seats() {
        return None;
    }
    Some(Retired { board, seats })
}

/// Closes the claim board of a crew that has ended. Returns how many units of work its workers claimed. `None` if a worker is still at
/// work.
pub fn close_board<S: Follow<E, T>, E: Drop, T: Drop, J: Naming + Boarding + Origin<S>>(
    crew: Arc<Shared<S, E, T, J>>,
) -> Option<Claims> {
    Some(retire(crew)?.close())
}

/// The seats of the claim board that the workers have given back. `None` if one has not.
fn seats_of<S: Follow<E, T>, E: Drop, T: Drop, J: Naming + Boarding + Origin<S>>(
    mut workers: Vec<WorkerSlot<S, E, T, J>>,
    mut room: Vec<ClaimSeat>,
) -> Option<Vec<ClaimSeat>>
    ensures { IfSome result (λ v. All (λ s. s.board ≡ J.board) v.items) }
{
    room.clear();
    while let Some(worker) = workers.pop() {
        let claimer = claimer_of(worker)?;
        let Ok(()) = room.push(claimer.into_seat()) else {
            return None;
        };
    }
    Some(room)
}

/// A worker's right to claim, which it has given back.
fn claimer_of<S: Follow<E, T>, E: Drop, T: Drop, J: Naming + Boarding + Origin<S>>(
    worker: WorkerSlot<S, E, T, J>,
) -> Option<Claimer<J>> {
    let WorkerSlot {
        start,
        end,
        followed: _,
    } = worker;
    let kit = match end.into_inner() {
        Some(kit) => Some(kit),
        None => start.into_inner(),
    };
    let Kit {
        follower: _,
        sheet: _,
        claimer,
    } = kit?;
    Some(claimer)
}

impl<S: Follow<E, T>, E: Drop, T: Drop, J: Naming + Boarding + Origin<S>> Shared<S, E, T, J> {
    /// What is left of a crew that has ended: its claim board, its workers' places, and room for the board's seats.
    fn into_parts(self) -> (CrewBoard<J>, Vec<WorkerSlot<S, E, T, J>>, Vec<ClaimSeat>) {
        let Shared {
            book: _,
            crew_board,
            plan: _,
            posts: _,
            places: _,
            workers,
            room,
            posted: _,
            claimed: _,
            asleep: _,
            owner_asleep: _,
            begun: _,
            slept: _,
            stop: _,
        } = self;
        (crew_board, workers, room.into_inner())
    }
}
