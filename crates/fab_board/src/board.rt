//! The board and its seats: one word, to which each claim adds 1.
ghost use Rattle.std.specs.Prelude.{◌≡◌, ℕ, ◌+◌, ◌^◌, ◌<◌, ◌≤◌, List, [], ◌∷◌, ◌++◌, Bool, true, false, cond, length, sum_by, All, Any, IfOk, IfSome, IfNone, None, IsPermutation};
ghost use Rattle.std.specs.List.{range_with_len};
ghost use Rattle.fab_board.specs.Counts.{times};
ghost use Rattle.fab_board.specs.Views.{BoardName, SeatModel, BoardModel, all_numbers};
ghost use Rattle.fab_board.specs.Dealt.{sized};

use crate::rule::{Claim, Deal, Gather, OnePart, Size, View};
use atomic_table::{Seat, Shared, Table};
use std::alloc::{AllocError, Global};
use std::marker::Model;

/// The numbers below a count. At most one seat claims each number. Threads share the board by reference.
#[derive(Drop)]
pub struct Board {
    table: Table<(), View, Size, Deal, Global>,
    count: u64,
    seats: u64,
}

impl Model for Board {
    ghost Value = { BoardModel };

    ghost view = { λ b.
        record {
          name = record { table = b.table.shared.table_id; count = b.count };
          seats = b.seats;
        } };

    ghost invariant = { λ b.
        (b.table.shared.table_id.words ≡ 1) × (b.table.shared.table_id.slots ≡ 0) ×
        (b.table.shared.key ≡ sized b.count b.seats) × (0 < b.seats) };
}

/// The right of one thread to claim numbers of one board. Contracts see it as its board, the list of numbers that it was given, and
/// whether one of its claims found no number left.
#[derive(Drop)]
pub struct ClaimSeat {
    seat: Seat<(), View>,
    told: bool,
}

impl Model for ClaimSeat {
    ghost Value = { SeatModel };

    ghost view = { λ s.
        record {
          board = record { table = s.seat.table_id; count = s.seat.me.0.count };
          list = s.seat.me.0.list;
          told = s.told;
        } };

    ghost invariant = { λ s.
        (s.seat.me.1 ≡ []) × (s.seat.me.0.parts ≡ 1) × (s.seat.me.0.told ≡ cond s.told 1 0) };
}

/// What was claimed from a board that is closed.
#[derive(Clone, Copy, Debug, PartialEq, Eq)]
pub struct Claims {
    /// How many numbers were claimed. They are the numbers below this count.
    pub taken: u64,
}

impl Board {
    /// Creates a board of the numbers below `count`, with `seats` seats. `count` is at most 2^62, `seats` is 1 to 64. An error means that
    /// memory ran out.
    pub fn new(alloc: Global, count: u64, seats: u64) -> Result<(Board, Vec<ClaimSeat>), AllocError>
        requires count { count ≤ 2 ^ 62 }
        requires seats { (0 < seats) × (seats ≤ 64) }
        ensures board { IfOk result (λ r. (r.0.name.count ≡ count) × (r.0.seats ≡ seats)) }
        ensures seats { IfOk result (λ r.
            (length r.1.items ≡ seats) ×
            All (λ s. (s.board ≡ r.0.name) × (s.list ≡ []) × (s.told ≡ false)) r.1.items) }
    {
        let (table, mut seat) = Table::of_words(alloc, &[0], &Size { count, seats })?;
        let mut all = Vec::with_capacity(alloc, seats as usize)?;
        for _part in 1..seats {
            let part = table.shared.split_seat::<OnePart>(&mut seat);
            all.push(ClaimSeat {
                seat: part,
                told: false,
            })?;
        }
        all.push(ClaimSeat { seat, told: false })?;
        let board = Board {
            table,
            count,
            seats,
        };
        Ok((board, all))
    }

    /// How many seats it was made with.
    pub(crate) fn seats(&self) -> u64
        ensures { result ≡ self.now.seats }
    {
        self.seats
    }

    /// Claims the least number that no seat has claimed. Returns `None` once all are claimed. Takes one atomic step and never waits. After
    /// a `None`, the same seat takes no further step.
    pub fn claim(&self, seat: &mut ClaimSeat) -> Option<u64>
        requires { seat.old.board ≡ self.now.name }
        ensures board { seat.new.board ≡ seat.old.board }

        // The number goes to the end of the seat's list, and is above the numbers already there.
        ensures some { IfSome result (λ i.
            (seat.new.list ≡ seat.old.list ++ i ∷ []) × (seat.new.told ≡ false)) }
        ensures below { IfSome result (λ i. i < self.now.name.count) }
        ensures above { IfSome result (λ i. All (λ x. x < i) seat.old.list) }

        ensures none { IfNone result ((seat.new.list ≡ seat.old.list) × (seat.new.told ≡ true)) }
        ensures told_before { seat.old.told ≡ true → (result ≡ None) × (seat.new ≡ seat.old) }
    {
        if seat.told {
            return None;
        }
        let found = self.table.shared.fetch_add::<Claim>(&mut seat.seat, 0, 1);
        if found < self.count {
            Some(found)
        } else {
            seat.told = true;
            None
        }
    }

    /// Closes the board, given all its seats, and returns how many numbers they claimed.
    pub fn close(self, seats: Vec<ClaimSeat>) -> Claims
        requires all { length seats.items ≡ self.seats }
        requires own { All (λ s. s.board ≡ self.name) seats.items }

        // The lists of all seats together are the numbers below `taken`, each once.
        ensures numbers { IsPermutation (range_with_len 0 result.taken) (all_numbers seats.items) }
        ensures below { result.taken ≤ self.name.count }
        ensures told { Any (λ s. s.told ≡ true) seats.items → result.taken ≡ self.name.count }
    {
        let Board {
            table,
            count,
            seats: _,
        } = self;
        let seat = gather(&table.shared, seats);
        let closed = table.close_with(seat);
        let word = closed.word(0);
        closed.free();
        // Each claim that found no number left added 1 as well.
        Claims {
            taken: word.min(count),
        }
    }
}

// Joins all seats into one, which knows what each of them knew.
fn gather(shared: &Shared<(), View, Size, Deal>, mut seats: Vec<ClaimSeat>) -> Seat<(), View>
    requires some { 0 < length seats.items }
    requires table { shared.now.table_id.words ≡ 1 }
    requires own { All (λ s. s.board.table ≡ shared.now.table_id) seats.items }
    ensures seat { (result.table_id ≡ shared.now.table_id) × (result.me.1 ≡ []) ×
        (result.me.0.parts ≡ length seats.items) }
    ensures numbers { (x : ℕ) →
        times x result.me.0.list ≡ sum_by (λ s. times x s.list) seats.items }
    ensures told { result.me.0.told ≡ sum_by (λ s. cond s.told 1 0) seats.items }
{
    let Some(first) = seats.pop() else {
        unreachable!()
    };
    let ClaimSeat { mut seat, told: _ } = first;
    while let Some(next) = seats.pop() {
        let ClaimSeat {
            seat: other,
            told: _,
        } = next;
        shared.join_seat::<Gather>(&mut seat, other);
    }
    seat
}
