// Runs that stop, and the subcommand `resume`, in memory.

use crate::desk::{Desk, HEAD, PLACE, POINT, REPORT, WORDS, run, run_on};
use std::alloc::{AllocError, Global};
use std::sync::Wait;
use std::test::*;
use std::thread::Threads;

const RESUME: [&[u8]; 9] = [
    b"resume", b"--arch", b"t.arch", b"--net", b"t.net", b"--point", b"t.point", b"--out",
    b"t.place",
];

// The report of the first five moves.
const FIRST: &[u8] = b"blocks 3 logic 1 pads 2 nets 2 array 1 x 1
start cost 4.0000
stage 0 t 10.0000 range 1.000 moves 3 accepted 0 cost 4.0000
";

// The report of the moves after them.
const REST: &[u8] = b"stage 1 t 5.0000 range 1.000 moves 3 accepted 0 cost 4.0000
stage 2 t 2.5000 range 1.000 moves 3 accepted 0 cost 4.0000
stage 3 t 1.2500 range 1.000 moves 3 accepted 0 cost 4.0000
frozen range 1.000 moves 3 accepted 0 cost 4.0000
final cost 4.0000 accepted 0 of 15
";

// These words, and more.
fn with<'a>(
    alloc: Global,
    words: &[&'a [u8]],
    more: &[&'a [u8]],
) -> Result<Vec<&'a [u8]>, AllocError> {
    let mut all = Vec::from_slice(alloc, words)?;
    all.extend_from_slice(more)?;
    Ok(all)
}

// What a run left that was resumed from the point.
fn resume(
    rt: &(impl AllocGlobal + Threads + Wait + Sync),
    more: &[&[u8]],
) -> Result<Vec<u8>, AllocError> {
    let point = Vec::from_slice(rt.alloc(), POINT)?;
    let desk = Desk::new(rt.alloc(), Some(point));
    let words = with(rt.alloc(), RESUME.as_slice(), more)?;
    run_on(rt, desk, words.as_slice(), 100_000)
}

#[test]
fn a_run_stops_at_a_checkpoint(rt: HostRuntime) -> Result<(), Fail> {
    let stop: [&[u8]; 4] = [b"--stop", b"5", b"--save", b"t.point"];
    let words = with(rt.alloc(), WORDS.as_slice(), stop.as_slice())?;
    let left = run(&rt, words.as_slice())?;
    let wanted = [b"0\n".as_slice(), FIRST, POINT].concat(rt.alloc())?;
    assert_eq!(rt; left, wanted);
    Ok(())
}

#[test]
fn a_run_goes_on_from_its_checkpoint(rt: HostRuntime) -> Result<(), Fail> {
    let more: [&[u8]; 4] = [b"--batch", b"7", b"--workers", b"5"];
    let left = resume(&rt, more.as_slice())?;
    let wanted = [b"0\n".as_slice(), REST, PLACE, POINT].concat(rt.alloc())?;
    assert_eq!(rt; left, wanted);
    Ok(())
}

#[test]
fn a_run_stops_again_where_it_began(rt: HostRuntime) -> Result<(), Fail> {
    let more: [&[u8]; 4] = [b"--stop", b"5", b"--save", b"t.point"];
    let left = resume(&rt, more.as_slice())?;
    let wanted = [b"0\n".as_slice(), POINT].concat(rt.alloc())?;
    assert_eq!(rt; left, wanted);
    Ok(())
}

#[test]
fn a_run_that_ends_before_its_stop_saves_nothing(rt: HostRuntime) -> Result<(), Fail> {
    let stop: [&[u8]; 4] = [b"--stop", b"15", b"--save", b"t.point"];
    let words = with(rt.alloc(), WORDS.as_slice(), stop.as_slice())?;
    let left = run(&rt, words.as_slice())?;
    let wanted = [b"0\n".as_slice(), REPORT, PLACE].concat(rt.alloc())?;
    assert_eq!(rt; left, wanted);
    Ok(())
}

#[test]
fn a_save_name_that_cannot_be_written_is_told_before_the_first_move(
    rt: HostRuntime,
) -> Result<(), Fail> {
    let stop: [&[u8]; 4] = [b"--stop", b"5", b"--save", b"missing/t.point"];
    let words = with(rt.alloc(), WORDS.as_slice(), stop.as_slice())?;
    let left = run(&rt, words.as_slice())?;
    let wanted = [b"4\n".as_slice(), HEAD, b"vplace: cannot write point\n"].concat(rt.alloc())?;
    assert_eq!(rt; left, wanted);
    Ok(())
}

#[test]
fn a_name_that_the_run_does_not_need_is_not_tried(rt: HostRuntime) -> Result<(), Fail> {
    let alloc = rt.alloc();
    // All fifteen moves are made, or more than there are.
    for moves in [b"15".as_slice(), b"18446744073709551615"] {
        let stop: [&[u8]; 4] = [b"--stop", moves, b"--save", b"missing/t.point"];
        let words = with(alloc, WORDS.as_slice(), stop.as_slice())?;
        let wanted = [b"0\n".as_slice(), REPORT, PLACE].concat(alloc)?;
        assert_eq!(rt; run(&rt, words.as_slice())?, wanted);
    }
    // The stop lies before the checkpoint.
    let stop: [&[u8]; 4] = [b"--stop", b"4", b"--save", b"missing/t.point"];
    let wanted = [b"0\n".as_slice(), REST, PLACE, POINT].concat(alloc)?;
    assert_eq!(rt; resume(&rt, stop.as_slice())?, wanted);
    // The run stops after five moves.
    let mut begun = WORDS;
    begun[8] = b"missing/t.place";
    let stop: [&[u8]; 4] = [b"--stop", b"5", b"--save", b"t.point"];
    let words = with(alloc, begun.as_slice(), stop.as_slice())?;
    let wanted = [b"0\n".as_slice(), FIRST, POINT].concat(alloc)?;
    assert_eq!(rt; run(&rt, words.as_slice())?, wanted);
    Ok(())
}

#[test]
fn an_out_name_that_the_run_needs_is_tried_before_the_first_move(
    rt: HostRuntime,
) -> Result<(), Fail> {
    let alloc = rt.alloc();
    let mut begun = WORDS;
    begun[8] = b"missing/t.place";
    let stop: [&[u8]; 4] = [b"--stop", b"15", b"--save", b"t.point"];
    let words = with(alloc, begun.as_slice(), stop.as_slice())?;
    let wanted = [b"4\n".as_slice(), HEAD, b"vplace: cannot write place\n"].concat(alloc)?;
    assert_eq!(rt; run(&rt, words.as_slice())?, wanted);
    Ok(())
}

#[test]
fn both_names_are_tried_where_acceptance_cools(rt: HostRuntime) -> Result<(), Fail> {
    let alloc = rt.alloc();
    let rows: [(&[u8], &[u8], &[u8], &[u8]); 4] = [
        (
            b"missing/t.place",
            b"t.point",
            b"4\n",
            b"vplace: cannot write place\n",
        ),
        (
            b"t.place",
            b"missing/t.point",
            b"4\n",
            b"vplace: cannot write point\n",
        ),
        (b"none", b"missing/t.point", b"3\n", b"vplace: no memory\n"),
        (b"t.place", b"none", b"3\n", b"vplace: no memory\n"),
    ];
    for (out, save, status, told) in rows {
        let mut begun = WORDS;
        begun[8] = out;
        begun[14] = b"adaptive";
        let stop: [&[u8]; 4] = [b"--stop", b"5", b"--save", save];
        let words = with(alloc, begun.as_slice(), stop.as_slice())?;
        let wanted = [status, HEAD, told].concat(alloc)?;
        assert_eq!(rt; run(&rt, words.as_slice())?, wanted);
    }
    Ok(())
}

#[test]
fn each_file_of_a_resumed_run_is_told_by_its_role(rt: HostRuntime) -> Result<(), Fail> {
    let rows: [(usize, &[u8], &[u8]); 6] = [
        (2, b"no", b"4\nvplace: cannot read arch\n"),
        (4, b"no", b"4\nvplace: cannot read net\n"),
        (6, b"no", b"4\nvplace: cannot read point\n"),
        (2, b"t.net", b"1\nvplace: arch: A1 NoIoRat\n"),
        (4, b"u.net", b"1\nvplace: net: N8 NoDriver name n2\n"),
        (6, b"t.net", b"1\nvplace: point: C1 BadVersion\n"),
    ];
    for (place, word, told) in rows {
        let mut words = RESUME;
        words[place] = word;
        let point = Vec::from_slice(rt.alloc(), POINT)?;
        let desk = Desk::new(rt.alloc(), Some(point));
        let left = run_on(&rt, desk, words.as_slice(), 100_000)?;
        let wanted = [told, POINT].concat(rt.alloc())?;
        assert_eq!(rt; left, wanted);
    }
    Ok(())
}

#[test]
fn a_checkpoint_that_cannot_be_read_is_told(rt: HostRuntime) -> Result<(), Fail> {
    let left = run(&rt, RESUME.as_slice())?;
    assert_eq!(rt;
        left.as_slice(),
        b"4\nvplace: cannot read point\n".as_slice()
    );
    Ok(())
}

#[test]
fn a_stop_without_a_name_is_told(rt: HostRuntime) -> Result<(), Fail> {
    let told = b"2\nvplace: --stop and --save go together\n".as_slice();
    let stop: [&[u8]; 2] = [b"--stop", b"5"];
    let words = with(rt.alloc(), WORDS.as_slice(), stop.as_slice())?;
    assert_eq!(rt; run(&rt, words.as_slice())?.as_slice(), told);
    let save: [&[u8]; 2] = [b"--save", b"t.point"];
    let words = with(rt.alloc(), RESUME.as_slice(), save.as_slice())?;
    assert_eq!(rt; run(&rt, words.as_slice())?.as_slice(), told);
    Ok(())
}
