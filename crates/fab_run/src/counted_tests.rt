// Runs that count the moves that they accept. What they answer and write besides is what runs that keep the numbers do: the expected
// answers for the design of seven blocks were made by an independent placer.

use crate::narrow::Narrow;
use crate::piece_tests::SEVEN_AT_13;
use crate::run_tests::{INPUTS, OPTIONS, SEVEN, SHORT, push_all, push_ending, writer_with};
use crate::{
    CountedOutcome, Inputs, Options, Restart, RunFault, fault_line, place_run_counted,
    resume_run_counted,
};
use fab_text::Counted;
use std::alloc::{AllocError, Global};
use std::sync::Wait;
use std::test::*;
use std::thread::Threads;

// What a run answered and wrote, in one text: the report, the place text, how many moves were accepted, the costs, how many moves were
// judged again, and where it stopped, or the fault.
fn told_of(
    alloc: Global,
    inputs: &Inputs,
    report: Counted<Narrow>,
    place: Counted<Narrow>,
    answer: Result<CountedOutcome, RunFault>,
) -> Result<Vec<u8>, AllocError> {
    let mut told = report.into_inner().taken;
    told.extend_from_slice(&place.into_inner().taken)?;
    match answer {
        Ok(outcome) => {
            push_all(&mut told, b"accepted", &[outcome.accepted])?;
            push_all(&mut told, b"costs", &outcome.costs)?;
            push_ending(&mut told, &outcome.ending)?;
        }
        Err(fault) => {
            let line = fault_line(alloc, &fault, inputs.net)?;
            told.extend_from_slice(&line)?;
        }
    }
    Ok(told)
}

fn counted(
    rt: &(impl AllocGlobal + Threads + Wait + Sync),
    inputs: &Inputs,
    options: &Options,
) -> Result<Vec<u8>, AllocError> {
    let alloc = rt.alloc();
    let mut report = writer_with(alloc, 10_000);
    let mut place = writer_with(alloc, 10_000);
    let answer = place_run_counted(rt, inputs, options, &mut report, &mut place);
    told_of(alloc, inputs, report, place, answer)
}

fn counted_on(
    rt: &(impl AllocGlobal + Threads + Wait + Sync),
    batch: u64,
) -> Result<Vec<u8>, AllocError> {
    let alloc = rt.alloc();
    let mut report = writer_with(alloc, 10_000);
    let mut place = writer_with(alloc, 10_000);
    let restart = Restart {
        point: SEVEN_AT_13,
        batch,
        workers: 4,
        stop: None,
    };
    let answer = resume_run_counted(rt, &SEVEN, &restart, &mut report, &mut place);
    told_of(alloc, &SEVEN, report, place, answer)
}

#[test]
fn accepted_moves_of_a_run_are_counted(rt: HostRuntime) -> Result<(), Fail> {
    let wanted: &[u8] = b"blocks 7 logic 4 pads 3 nets 6 array 3 x 2
start cost 23.0000
stage 0 t 2.0000 range 3.000 moves 8 accepted 5 cost 20.0000
stage 1 t 1.0000 range 3.000 moves 8 accepted 2 cost 23.0000
stage 2 t 0.5000 range 2.430 moves 8 accepted 2 cost 23.0000
frozen range 1.968 moves 8 accepted 1 cost 23.0000
final cost 23.0000 accepted 10 of 32
Netlist file: s.net   Architecture file: s.arch
Array size: 3 x 2 logic blocks

#block name\tx\ty\tsubblk\tblock number
#----------\t--\t--\t------\t------------
a\t0\t1\t0\t#0
b\t4\t1\t0\t#1
out:z\t0\t2\t0\t#2
x\t3\t1\t0\t#3
y\t3\t2\t0\t#4
z\t2\t2\t0\t#5
w\t1\t1\t0\t#6
accepted 10
costs 230000 200000 230000 230000 230000
";
    let options = Options { seed: 0, ..SHORT };
    assert_eq!(rt; counted(&rt, &SEVEN, &options)?.as_slice(), wanted);
    Ok(())
}

#[test]
fn accepted_moves_of_two_pieces_are_counted(rt: HostRuntime) -> Result<(), Fail> {
    let first: &[u8] = b"blocks 7 logic 4 pads 3 nets 6 array 3 x 2
start cost 24.0000
stage 0 t 2.0000 range 3.000 moves 8 accepted 3 cost 24.0000
accepted 8
costs 240000 240000
stage 1 10000 2805
moves 5 5 8
";
    // Those of the first piece are not counted once more.
    let second: &[u8] = b"stage 1 t 1.0000 range 2.805 moves 8 accepted 6 cost 23.0000
stage 2 t 0.5000 range 3.000 moves 8 accepted 3 cost 22.0000
frozen range 2.805 moves 8 accepted 2 cost 21.0000
final cost 21.0000 accepted 14 of 32
Netlist file: s.net   Architecture file: s.arch
Array size: 3 x 2 logic blocks

#block name\tx\ty\tsubblk\tblock number
#----------\t--\t--\t------\t------------
a\t0\t1\t0\t#0
b\t2\t0\t0\t#1
out:z\t0\t2\t0\t#2
x\t2\t1\t0\t#3
y\t3\t1\t0\t#4
z\t2\t2\t0\t#5
w\t1\t1\t0\t#6
accepted 6
costs 220000 230000 220000 210000
";
    let options = Options {
        seed: 1,
        stop: Some(13),
        ..SHORT
    };
    assert_eq!(rt; counted(&rt, &SEVEN, &options)?.as_slice(), first);
    assert_eq!(rt; counted_on(&rt, 16)?.as_slice(), second);
    Ok(())
}

#[test]
fn a_counted_run_is_refused_as_any_other(rt: HostRuntime) -> Result<(), Fail> {
    let options = Options {
        workers: 65,
        ..OPTIONS
    };
    let of_workers: &[u8] = b"vplace: option: O2 WorkersOutOfRange";
    let of_batch: &[u8] = b"vplace: option: O1 BatchOutOfRange";
    assert_eq!(rt; counted(&rt, &INPUTS, &options)?.as_slice(), of_workers);
    assert_eq!(rt; counted_on(&rt, 0)?.as_slice(), of_batch);
    Ok(())
}
