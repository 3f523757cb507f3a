//! What comes of the first designs of `world_tables` at the ends of their runs: written by `tests/tables/turns.py`, from
//! what an independent slow placer makes of each, which adds up all nets for each move.

/// The end of a run.
#[derive(Clone, Copy)]
pub(crate) struct End {
    /// The seed of the row whose run it is.
    pub(crate) seed: u64,
    /// How many moves are judged again in turns of 1, of 2 and of 5 moves.
    pub(crate) redone: [u64; 3],
    /// The moves made and accepted, the cost, and the sites of the blocks.
    pub(crate) wanted: &'static str,
}

pub(crate) const ENDS: [End; 20] = [
    End {
        seed: 1,
        redone: [2, 3, 4],
        wanted: "done 12 total 6 cost 180000 at 2,3,0 1,3,1 3,2,1 2,2,0 1,2,0 1,1,0 2,1,0 2,0,1 0,1,0",
    },
    End {
        seed: 2,
        redone: [5, 7, 7],
        wanted: "done 15 total 13 cost 103312 at 3,1,0 2,1,0 1,1,0 2,2,0",
    },
    End {
        seed: 3,
        redone: [22, 46, 61],
        wanted: "done 108 total 59 cost 170000 at 0,2,0 0,2,1 2,0,0 2,2,0 1,1,0 2,1,0 1,2,0 0,1,1 2,3,1",
    },
    End {
        seed: 4,
        redone: [8, 16, 29],
        wanted: "done 63 total 25 cost 168628 at 1,3,0 0,1,0 1,1,0 2,2,0 1,2,0 2,1,0 3,1,1",
    },
    End {
        seed: 5,
        redone: [7, 10, 10],
        wanted: "done 20 total 15 cost 384140 at 4,1,1 1,4,1 1,2,0 1,3,0 2,1,0 1,1,0 3,1,0 3,2,0 2,2,0 3,0,0",
    },
    End {
        seed: 6,
        redone: [11, 17, 17],
        wanted: "done 48 total 26 cost 258280 at 2,4,1 1,2,0 1,1,0 2,3,0 3,2,0 1,3,0 3,1,0 2,1,0",
    },
    End {
        seed: 7,
        redone: [0, 0, 0],
        wanted: "done 3 total 1 cost 247680 at 0,2,1 3,3,0 3,2,0 2,1,0 1,3,0 2,2,0",
    },
    End {
        seed: 8,
        redone: [3, 8, 10],
        wanted: "done 16 total 7 cost 176144 at 3,2,1 1,0,1 2,2,0 1,1,0 2,1,0 1,2,0 3,1,0",
    },
    End {
        seed: 9,
        redone: [9, 13, 14],
        wanted: "done 30 total 20 cost 334968 at 1,4,1 4,2,0 0,1,1 3,3,0 1,2,0 3,2,0 2,2,0 2,3,0 1,1,0 4,3,0 1,0,0",
    },
    End {
        seed: 10,
        redone: [2, 3, 3],
        wanted: "done 21 total 3 cost 297680 at 1,4,1 1,3,0 2,2,0 3,2,0 2,1,0 2,3,0 3,3,0 1,2,0",
    },
    End {
        seed: 11,
        redone: [16, 24, 30],
        wanted: "done 45 total 29 cost 299456 at 0,2,0 0,1,0 1,0,1 2,1,0 1,3,0 2,3,0 1,2,0 3,2,0 2,2,0 3,4,1 4,2,0",
    },
    End {
        seed: 12,
        redone: [3, 5, 5],
        wanted: "done 12 total 8 cost 270000 at 3,4,0 4,2,0 1,1,0 2,2,0 1,2,0 3,2,0 3,3,0 1,3,0 4,2,1",
    },
    End {
        seed: 13,
        redone: [8, 17, 19],
        wanted: "done 35 total 24 cost 222288 at 4,2,0 3,0,0 1,3,0 2,2,0 1,2,0 2,3,0 3,3,0 0,2,1",
    },
    End {
        seed: 14,
        redone: [8, 11, 11],
        wanted: "done 36 total 25 cost 163312 at 2,3,0 1,3,0 3,1,1 2,2,0 1,1,0 2,1,0 1,0,1 3,1,0",
    },
    End {
        seed: 15,
        redone: [8, 10, 12],
        wanted: "done 25 total 15 cost 133312 at 1,3,1 1,2,0 2,2,0 2,1,0 1,1,0",
    },
    End {
        seed: 16,
        redone: [5, 11, 17],
        wanted: "done 27 total 18 cost 223312 at 4,3,1 0,2,0 2,2,0 1,2,0 2,1,0 2,3,0 1,3,0 0,2,1",
    },
    End {
        seed: 17,
        redone: [3, 7, 7],
        wanted: "done 15 total 9 cost 373356 at 4,1,1 4,1,0 1,3,0 3,1,0 3,2,0 3,3,0 2,3,0 2,2,0 1,2,0 1,0,0",
    },
    End {
        seed: 18,
        redone: [4, 5, 5],
        wanted: "done 10 total 6 cost 143312 at 3,1,1 2,1,0 1,2,0 2,2,0 1,1,0",
    },
    End {
        seed: 19,
        redone: [4, 6, 7],
        wanted: "done 25 total 9 cost 142484 at 3,1,1 1,0,1 0,1,0 1,2,0 2,2,0 1,1,0 0,1,1 1,3,0",
    },
    End {
        seed: 20,
        redone: [2, 2, 2],
        wanted: "done 9 total 5 cost 160000 at 2,3,0 3,2,1 2,1,0 1,2,0 1,1,0 2,2,0 3,1,0",
    },
];
