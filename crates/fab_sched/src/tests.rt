use crate::Schedule;
use std::test::*;

#[test]
fn temperatures_fall_with_each_stage(rt: HostRuntime) -> Result<(), Fail> {
    let rows = [
        (0, 100_000, true),
        (0, 80_000, false),
        (0, 0, false),
        (1, 80_000, true),
        (1, 99_999, true),
        (1, 100_000, false),
        (1, 10_000, true),
        (1, 9_999, false),
        (1, 0, true),
        (90_000, 10_000, true),
        (90_001, 0, true),
        (90_001, 10_000, false),
        (90_002, 0, false),
        (u64::MAX, u64::MAX, false),
        (1, u64::MAX, false),
    ];
    let schedule = Schedule::adaptive(100_000, 10_000, 3)?;
    for (x, t, wanted) in rows {
        assert_eq!(rt; schedule.may_stand(x, t), wanted);
    }
    Ok(())
}

#[test]
fn a_factor_says_each_temperature(rt: HostRuntime) -> Result<(), Fail> {
    let rows = [
        (0, 100_000, true),
        (0, 99_999, false),
        (1, 50_000, true),
        (1, 49_999, false),
        (1, 0, false),
        (4, 0, true),
        (4, 6_250, false),
        (5, 0, false),
        (u64::MAX, 0, false),
    ];
    let schedule = Schedule::new(100_000, 10_000, 500, 3)?;
    for (x, t, wanted) in rows {
        assert_eq!(rt; schedule.may_stand(x, t), wanted);
    }
    Ok(())
}
