//! The runs of the jobs.

use crate::digest::{START, with_bytes, with_number, with_numbers};
use fab_file::Labels;
use fab_run::{
    CountedOutcome, Inputs, Moves, Options, Outcome, check_run, place_run, place_run_counted,
};
use fab_sched::Cooling;
use fab_text::Counted;
use std::alloc::Global;
use std::sync::Wait;
use std::thread::Threads;

/// The texts of a circuit.
#[derive(Clone, Copy)]
pub struct Circuit<'a> {
    pub arch: &'a [u8],
    pub net: &'a [u8],
}

/// The numbers of a run that jobs choose. The other numbers are the program's defaults.
#[derive(Clone, Copy)]
pub struct Pace {
    pub seed: u64,
    pub moves: u64,
    pub workers: u64,
}

/// What a run answered: its last cost in ten-thousandths, how many moves were accepted, how many were redone (if that was counted), and a
/// digest of it all.
#[derive(Clone, Copy)]
pub struct Answer {
    pub cost: u64,
    pub accepted: u64,
    pub again: Option<u64>,
    pub digest: u64,
}

/// An answer, and the placement text.
#[derive(Drop)]
pub struct Run {
    pub answer: Answer,
    pub place: Vec<u8>,
}

const LABELS: Labels<'static> = Labels {
    net: b"bench.net",
    arch: b"bench.arch",
};

fn last_of(costs: &[u64]) -> u64 {
    match costs.last() {
        Some(cost) => *cost,
        None => 0,
    }
}

fn answer_of(outcome: &Outcome, report: &[u8], place: &[u8]) -> Answer {
    let digest = with_numbers(with_numbers(START, &outcome.accepted), &outcome.costs);
    let digest = with_number(digest, outcome.redone);
    Answer {
        cost: last_of(&outcome.costs),
        accepted: outcome.accepted.len() as u64,
        again: Some(outcome.redone),
        digest: with_bytes(with_bytes(digest, report), place),
    }
}

fn counted_answer_of(outcome: &CountedOutcome, report: &[u8], place: &[u8]) -> Answer {
    let digest = with_number(with_numbers(START, &outcome.costs), outcome.accepted);
    Answer {
        cost: last_of(&outcome.costs),
        accepted: outcome.accepted,
        again: None,
        digest: with_bytes(with_bytes(digest, report), place),
    }
}

fn inputs_of<'a>(circuit: &Circuit<'a>) -> Inputs<'a> {
    Inputs {
        arch: circuit.arch,
        net: circuit.net,
        pads: None,
        labels: LABELS,
    }
}

fn options_of(pace: &Pace) -> Options {
    Options {
        seed: pace.seed,
        size: None,
        init_t: 1_000_000,
        exit_t: 100,
        cooling: Cooling::Factor(800),
        moves: Moves::Given(pace.moves),
        batch: 64,
        workers: pace.workers,
        stop: None,
    }
}

/// Places a circuit; `None` if the run is refused.
pub fn placed<R: AllocGlobal + Threads + Wait + Sync>(
    rt: &R,
    circuit: &Circuit<'_>,
    pace: &Pace,
) -> Option<Run> {
    let inputs = inputs_of(circuit);
    let options = options_of(pace);
    let mut report = Counted::new(Vec::new(rt.alloc()));
    let mut place = Counted::new(Vec::new(rt.alloc()));
    let outcome = place_run(rt, &inputs, &options, &mut report, &mut place).ok()?;
    let report = report.into_inner();
    let place = place.into_inner();
    let answer = answer_of(&outcome, &report, &place);
    Some(Run { answer, place })
}

/// Places a circuit by the call that the program makes, which counts accepted moves but not redone moves. `None` if the run is refused.
pub fn placed_as_program<R: AllocGlobal + Threads + Wait + Sync>(
    rt: &R,
    circuit: &Circuit<'_>,
    pace: &Pace,
) -> Option<Answer> {
    let inputs = inputs_of(circuit);
    let options = options_of(pace);
    let mut report = Counted::new(Vec::new(rt.alloc()));
    let mut place = Counted::new(Vec::new(rt.alloc()));
    let outcome = place_run_counted(rt, &inputs, &options, &mut report, &mut place).ok()?;
    let report = report.into_inner();
    let place = place.into_inner();
    Some(counted_answer_of(&outcome, &report, &place))
}

/// Checks a placement of a circuit, and returns its cost and a digest of the report; `None` if the check refuses it.
pub fn checked(alloc: Global, circuit: &Circuit<'_>, place: &[u8]) -> Option<(u64, u64)> {
    let mut report = Counted::new(Vec::new(alloc));
    let cost = check_run(alloc, circuit.arch, circuit.net, place, &mut report).ok()?;
    let report = report.into_inner();
    Some((cost, with_bytes(START, &report)))
}
