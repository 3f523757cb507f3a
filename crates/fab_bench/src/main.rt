//! `fab_bench`: whole runs of the library on designs of real shape, for `bench/run` to time. Each job prints a digest of all that its runs
//! answered, and no times. A job is given by words:
//!
//! - `place NAME SEED MOVES WORKERS` places the circuit in `NAME.arch` and `NAME.net`;
//! - `program NAME SEED MOVES WORKERS` places it by the call that the program makes, which does not count redone moves;
//! - `grown LOGIC HUBS SEED MOVES WORKERS` places a circuit of `LOGIC` logic blocks that is grown from the seed; on average, one of `HUBS`
//!   inputs hangs on one of a few nets;
//! - `suite LOGIC SEED DESIGNS MOVES` places `DESIGNS` grown circuits in turn with few moves, and checks each placement.
//!
//! A stage has `MOVES` moves.
#![tactic(auto)]

mod circuits;
mod digest;
mod draws;
mod jobs;
mod words;

use jobs::{Answer, Circuit, Pace, checked, placed, placed_as_program};
use std::alloc::Global;
use std::fs;
use std::rt::{Env, Files};
use std::sync::Wait;
use std::thread::Threads;
use words::{Words, given};

// The line with the answer of a job.
fn told(alloc: Global, answer: &Answer) -> anyhow::Result<String> {
    let Answer {
        cost,
        accepted,
        again,
        digest,
    } = *answer;
    Ok(match again {
        Some(again) => format!(in alloc;
            "cost {cost} accepted {accepted} judged again {again} digest {digest}\n"
        )?,
        None => format!(in alloc; "cost {cost} accepted {accepted} digest {digest}\n")?,
    })
}

// The line of a job whose run may be refused.
fn told_or_refused(alloc: Global, answer: &Option<Answer>) -> anyhow::Result<String> {
    match answer {
        Some(answer) => told(alloc, answer),
        None => Ok(String::from_str(alloc, "refused\n")?),
    }
}

// Places a circuit from two files, by the program's call or by the one that counts all.
fn place<R: AllocGlobal + Files + Threads + Wait + Sync>(
    rt: &R,
    words: &Words,
    as_program: bool,
) -> anyhow::Result<String> {
    let alloc = rt.alloc();
    let Some(name) = words.text(1) else {
        return Ok(String::new(alloc));
    };
    let arch = fs::read(rt, format!(in alloc; "{name}.arch")?.as_str())?;
    let net = fs::read(rt, format!(in alloc; "{name}.net")?.as_str())?;
    let circuit = Circuit {
        arch: &arch,
        net: &net,
    };
    let pace = Pace {
        seed: words.number(2),
        moves: words.number(3),
        workers: words.number(4),
    };
    let answer = if as_program {
        placed_as_program(rt, &circuit, &pace)
    } else {
        placed(rt, &circuit, &pace).map(|run| run.answer)
    };
    told_or_refused(alloc, &answer)
}

// Places a circuit that is grown from the seed.
fn grown<R: AllocGlobal + Threads + Wait + Sync>(rt: &R, words: &Words) -> anyhow::Result<String> {
    let alloc = rt.alloc();
    let net = circuits::grown(alloc, words.number(1), words.number(2), words.number(3))?;
    let circuit = Circuit {
        arch: circuits::ARCH,
        net: &net,
    };
    let pace = Pace {
        seed: words.number(3),
        moves: words.number(4),
        workers: words.number(5),
    };
    let answer = placed(rt, &circuit, &pace).map(|run| run.answer);
    told_or_refused(alloc, &answer)
}

// Places and checks several grown circuits.
fn suite<R: AllocGlobal + Threads + Wait + Sync>(rt: &R, words: &Words) -> anyhow::Result<String> {
    let alloc = rt.alloc();
    let mut text = String::new(alloc);
    let first = words.number(2);
    for design in 0..words.number(3) {
        let seed = first.wrapping_mul(1000).wrapping_add(design);
        let net = circuits::grown(alloc, words.number(1), 40, seed)?;
        let circuit = Circuit {
            arch: circuits::ARCH,
            net: &net,
        };
        let pace = Pace {
            seed,
            moves: words.number(4),
            workers: 1,
        };
        let Some(run) = placed(rt, &circuit, &pace) else {
            return Ok(String::from_str(alloc, "refused\n")?);
        };
        text.push_str(told(alloc, &run.answer)?.as_str())?;
        match checked(alloc, &circuit, &run.place) {
            Some((cost, digest)) => {
                text.push_str(format!(in alloc; "checked {cost} digest {digest}\n")?.as_str())?
            }
            None => text.push_str("not legal\n")?,
        }
    }
    Ok(text)
}

fn answer<R: AllocGlobal + Env + Files + Threads + Wait + Sync>(rt: &R) -> anyhow::Result<String> {
    let words = given(rt)?;
    match words.text(0) {
        Some("place") => place(rt, &words, false),
        Some("program") => place(rt, &words, true),
        Some("grown") => grown(rt, &words),
        Some("suite") => suite(rt, &words),
        _ => Ok(String::from_str(rt.alloc(), "the jobs are place, program, grown and suite\n")?),
    }
}

fn main(rt: HostRuntime) -> anyhow::Result<()> {
    let text = answer(&rt)?;
    print!(rt; "{text}")?;
    Ok(())
}
