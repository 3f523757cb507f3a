ghost use Rattle.std.specs.Prelude.{◌≤◌};

use crate::{Cooling, SchedFault, Schedule, Stage, moves_of, stages_are_lawful};
use std::test::*;

const LARGEST: u64 = 1_073_741_824;

fn fault<T>(made: Result<T, SchedFault>) -> Option<SchedFault>
where
    T: Drop,
{
    match made {
        Ok(_) => None,
        Err(fault) => Some(fault),
    }
}

#[test]
fn blocks_and_a_factor_give_the_moves(rt: HostRuntime) {
    let rows: [(u64, u16, u64); 18] = [
        (1, 8, 16),
        (1, 10, 21),
        (10, 0, 1),
        (1, 0, 1),
        (1, 1, 1),
        (1, 2, 2),
        (3, 17, 131),
        (10, 1, 10),
        (10, 200, 11_696),
        (10, 770, 70_575),
        (1, 1585, 18_480),
        (10, 1585, 184_801),
        (10, 9583, 2_035_488),
        (7, 1000, 70_000),
        (9999, 5000, 854_902_474),
        (10_000, 5931, 1_073_586_970),
        (100, 65_535, 264_219_219),
        (406, 65_535, 1_072_730_030),
    ];
    for (inner, blocks, moves) in rows {
        assert_eq!(rt; moves_of(inner, u32::from(blocks)), Ok(moves));
    }
    let refused: [(u64, u16); 5] = [
        (0, 1),
        (10_001, 1),
        (10_000, 65_535),
        (407, 65_535),
        (10_000, 5932),
    ];
    for (inner, blocks) in refused {
        assert_eq!(rt;
            moves_of(inner, u32::from(blocks)),
            Err(SchedFault::MovesOutOfRange)
        );
    }
}

#[test]
fn the_first_number_out_of_its_limits_is_told(rt: HostRuntime) {
    let rows = [
        (0, 0, 0, 0, SchedFault::InitOutOfRange),
        (LARGEST + 1, 1, 1, 1, SchedFault::InitOutOfRange),
        (1, 0, 0, 0, SchedFault::ExitOutOfRange),
        (1, LARGEST + 1, 1000, 1, SchedFault::ExitOutOfRange),
        (1, 1, 0, 0, SchedFault::AlphaOutOfRange),
        (1, 1, 1000, 1, SchedFault::AlphaOutOfRange),
        (1, 1, 999, 0, SchedFault::MovesOutOfRange),
        (1, 1, 1, LARGEST + 1, SchedFault::MovesOutOfRange),
    ];
    for (init_t, exit_t, alpha, moves, wanted) in rows {
        assert_eq!(rt;
            fault(Schedule::new(init_t, exit_t, alpha, moves)),
            Some(wanted)
        );
    }
    assert_eq!(rt; fault(Schedule::new(LARGEST, LARGEST, 999, LARGEST)), None);
    assert_eq!(rt; fault(Schedule::new(1, 1, 1, 1)), None);
}

#[test]
fn cooling_by_acceptance_has_no_factor_to_be_wrong(rt: HostRuntime) {
    let rows = [
        (0, 0, 0, SchedFault::InitOutOfRange),
        (LARGEST, 0, 0, SchedFault::ExitOutOfRange),
        (LARGEST, LARGEST, 0, SchedFault::MovesOutOfRange),
        (1, 1, LARGEST + 1, SchedFault::MovesOutOfRange),
    ];
    for (init_t, exit_t, moves, wanted) in rows {
        assert_eq!(rt;
            fault(Schedule::adaptive(init_t, exit_t, moves)),
            Some(wanted)
        );
    }
    assert_eq!(rt; fault(Schedule::adaptive(LARGEST, LARGEST, LARGEST)), None);
}

#[test]
fn a_schedule_says_what_it_was_made_of(rt: HostRuntime) -> Result<(), Fail> {
    let given = Schedule::new(7, 8, 9, 10)?;
    assert_eq!(rt; (given.init_t(), given.exit_t(), given.moves()), (7, 8, 10));
    assert_eq!(rt; given.cooling(), Cooling::Factor(9));
    let adaptive = Schedule::adaptive(7, 8, 10)?;
    assert_eq!(rt;
        (adaptive.init_t(), adaptive.exit_t(), adaptive.moves()),
        (7, 8, 10)
    );
    assert_eq!(rt; adaptive.cooling(), Cooling::Adaptive);
    Ok(())
}

#[test]
fn a_factor_gives_each_temperature(rt: HostRuntime) -> Result<(), Fail> {
    let schedule = Schedule::new(100_000, 10_000, 500, 3)?;
    let temperatures = [100_000, 50_000, 25_000, 12_500, 0];
    for (x, t) in temperatures.iter().enumerate() {
        assert_eq!(rt; schedule.temperature(x as u64), Some(*t));
    }
    assert_eq!(rt; schedule.temperature(5), None);
    assert_eq!(rt; schedule.temperature(u64::MAX), None);
    assert_eq!(rt; Schedule::adaptive(1, 1, 1)?.temperature(0), None);
    Ok(())
}

#[test]
fn the_last_index_is_that_of_the_frozen_stage(rt: HostRuntime) -> Result<(), Fail> {
    let rows = [
        (100_000, 10_000, 500, 4),
        (1, 1, 999, 1),
        (1, 2, 1, 0),
        (LARGEST, 1, 999, 14_457),
        (LARGEST, 1, 1, 4),
        (1000, 1, 800, 27),
    ];
    for (init_t, exit_t, alpha, last) in rows {
        assert_eq!(rt; Schedule::new(init_t, exit_t, alpha, 1)?.last_index(), last);
    }
    assert_eq!(rt;
        Schedule::adaptive(100_000, 10_000, 3)?.last_index(),
        90_001
    );
    assert_eq!(rt; Schedule::adaptive(1, 2, 3)?.last_index(), 0);
    assert_eq!(rt; Schedule::adaptive(2, 2, 3)?.last_index(), 1);
    Ok(())
}

/// Whether the stages of a run have exactly these temperatures and ranges, one after another, when these numbers of
/// moves are accepted in each.
fn are_stages(schedule: &Schedule, side: u16, rows: &[(u64, u64, u64)]) -> bool
    requires { (1 ≤ side) × (side ≤ 1000) }
{
    let moves = schedule.moves();
    let mut stage = schedule.first(side);
    'rows: for i in 0..rows.len() {
        let (t, range, accepted) = rows[i];
        let wanted = Stage {
            index: i as u64,
            t,
            range,
            done: 0,
            accepted: 0,
            frozen: t == 0,
        };
        if stage != wanted {
            return false;
        }
        match schedule.next_stage(&stage, accepted.min(moves), side) {
            None => return i + 1 == rows.len(),
            Some(next) => stage = next,
        }
    }
    false
}

/// The second temperature, if the first stage has this range and this number of accepted moves.
fn second(schedule: &Schedule, range: u64, accepted: u64) -> Option<u64>
    requires { (1000 ≤ range) × (range ≤ 1000000) }
{
    let moves = schedule.moves();
    let mut stage = schedule.first(1000);
    stage.range = range;
    match schedule.next_stage(&stage, accepted.min(moves), 1000) {
        None => None,
        Some(next) => Some(next.t),
    }
}

#[test]
fn stages_follow_one_another(rt: HostRuntime) -> Result<(), Fail> {
    stages_are_lawful();
    let halving = Schedule::new(100_000, 10_000, 500, 10)?;
    let rows = [
        (100_000, 3000, 10),
        (50_000, 3000, 0),
        (25_000, 1680, 0),
        (12_500, 1000, 5),
        (0, 1060, 2),
    ];
    let right = are_stages(&halving, 3, &rows);
    assert_eq!(rt; right, true);
    let frozen = Schedule::new(1, 2, 500, 10)?;
    let right = are_stages(&frozen, 2, &[(0, 2000, 0)]);
    assert_eq!(rt; right, true);
    Ok(())
}

#[test]
fn where_nothing_is_accepted_the_temperature_falls_by_a_fifth(rt: HostRuntime) -> Result<(), Fail> {
    let schedule = Schedule::adaptive(100_000, 10_000, 3)?;
    let rows = [
        (100_000, 1000, 0),
        (80_000, 1000, 0),
        (64_000, 1000, 0),
        (51_200, 1000, 0),
        (40_960, 1000, 0),
        (32_768, 1000, 0),
        (26_214, 1000, 0),
        (20_971, 1000, 0),
        (16_776, 1000, 0),
        (13_420, 1000, 0),
        (10_736, 1000, 0),
        (0, 1000, 0),
    ];
    let right = are_stages(&schedule, 1, &rows);
    assert_eq!(rt; right, true);
    Ok(())
}

#[test]
fn what_is_accepted_sets_temperatures_and_ranges(rt: HostRuntime) -> Result<(), Fail> {
    let schedule = Schedule::adaptive(100_000, 10_000, 100)?;
    let rows = [
        (100_000, 5000, 97),
        (50_000, 5000, 96),
        (45_000, 5000, 81),
        (40_500, 5000, 80),
        (38_475, 5000, 16),
        (36_551, 3600, 15),
        (34_723, 2556, 15),
        (32_986, 1814, 50),
        (31_336, 1922, 99),
        (15_668, 2979, 0),
        (14_884, 1668, 0),
        (14_139, 1000, 0),
        (11_311, 1000, 0),
        (0, 1000, 0),
    ];
    let right = are_stages(&schedule, 5, &rows);
    assert_eq!(rt; right, true);
    Ok(())
}

#[test]
fn the_share_of_accepted_moves_sets_the_factor(rt: HostRuntime) -> Result<(), Fail> {
    let schedule = Schedule::adaptive(100_000, 10_000, 100)?;
    let rows = [
        (97, 50_000),
        (96, 90_000),
        (81, 90_000),
        (80, 95_000),
        (16, 95_000),
        (15, 80_000),
        (0, 80_000),
    ];
    for (accepted, t) in rows {
        assert_eq!(rt; second(&schedule, 1000, accepted), Some(t));
    }
    assert_eq!(rt; second(&schedule, 1001, 15), Some(95_000));
    Ok(())
}

#[test]
fn faults_are_printed_by_their_names(rt: HostRuntime) -> Result<(), Fail> {
    let alloc = rt.alloc();
    let rows = [
        (SchedFault::InitOutOfRange, "S1 InitOutOfRange"),
        (SchedFault::ExitOutOfRange, "S2 ExitOutOfRange"),
        (SchedFault::AlphaOutOfRange, "S3 AlphaOutOfRange"),
        (SchedFault::MovesOutOfRange, "S4 MovesOutOfRange"),
    ];
    for (fault, text) in rows {
        let printed = format!(in alloc; "{fault}")?;
        assert_eq!(rt; printed.as_str(), text);
    }
    Ok(())
}
