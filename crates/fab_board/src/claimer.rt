//! The claim board of a crew: each unit of work is claimed once.

ghost use Rattle.std.specs.Prelude.{◌≡◌};

use crate::board::{Board, ClaimSeat};
use std::marker::{Brand, PhantomData};

/// Names a claim board. The name is part of a crew's type, so its threads claim on no other board. Each call that makes a crew picks its
/// own.
pub trait Boarding {
    ghost use Rattle.fab_board.specs.Views.{BoardName};

    ghost board: { BoardName };
}

impl Boarding for Brand {
    ghost use Rattle.std.specs.Prelude.{[]};

    ghost board = { record {
      table = record {
        words = 0;
        slots = 0;
        views_name = 0;
        atom = 0;
        block = 0;
        offset = 0;
        slot_names = [];
      };
      count = 0;
    } };
}

/// The claim board of a crew.
#[derive(Drop)]
pub(crate) struct CrewBoard<J: Boarding> {
    board: Board,
    of: PhantomData<J>,
    ghost named: { board.name ≡ J.board },
}

/// The right of one worker to claim units of its crew.
#[derive(Drop)]
pub(crate) struct Claimer<J: Boarding> {
    seat: ClaimSeat,
    of: PhantomData<J>,
    ghost named: { seat.board ≡ J.board },
}

impl<J: Boarding> CrewBoard<J> {
    pub(crate) fn new(board: Board) -> CrewBoard<J>
        requires { board.name ≡ J.board }
    {
        CrewBoard {
            board,
            of: PhantomData,
        }
    }

    /// The board alone.
    pub(crate) fn into_board(self) -> Board
        ensures { result.name ≡ J.board }
    {
        let CrewBoard { board, of: _ } = self;
        board
    }

    /// Claims the least unit that nobody has claimed, by one atomic step. `None` if there is none left.
    pub(crate) fn claim(&self, claimer: &mut Claimer<J>) -> Option<u64> {
        self.board.claim(&mut claimer.seat)
    }
}

impl<J: Boarding> Claimer<J> {
    pub(crate) fn new(seat: ClaimSeat) -> Claimer<J>
        requires { seat.board ≡ J.board }
    {
        Claimer {
            seat,
            of: PhantomData,
        }
    }

    /// The seat alone.
    pub(crate) fn into_seat(self) -> ClaimSeat
        ensures { result.board ≡ J.board }
    {
        let Claimer { seat, of: _ } = self;
        seat
    }
}
