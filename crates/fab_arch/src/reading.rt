//! Reads an architecture text line by line, and keeps what the lines read so far mean.

ghost use Rattle.std.specs.Prelude.{◌≡◌, ℕ, ◌++◌, ◌<◌, ◌≤◌, ◌||◌, length, map, slice_get, IfOk, IfErr, IfSome, OnOk, MatchResult, List, Some, None, is_some};
ghost use Rattle.std.specs.Option.{option_map};
ghost use Rattle.std.specs.List.{list_all};
ghost use Rattle.std.specs.Str.{bytes_eq};
ghost use Rattle.fab_text.specs.Lines.{TextLine, lines};
ghost use Rattle.fab_text.specs.Shown.{shown};
ghost use Rattle.fab_text.specs.FirstFault.{TookNoFault};
ghost use Rattle.fab_arch.specs.Arch.{is_word, is_io_rat, is_inpin, is_outpin, is_side, are_sides, number_of, without_global, pin_fault, err_of, ratio_of, line_fault, fault_of, end_fault, ratio_after, pins_in, FaultIs, IsArch, MeansOrFaults, first_fault};
ghost use Rattle.fab_arch.specs.declared.fault.ArchFault.TheVariants.{NoMemory};

use crate::architecture::{Arch, PinKind};
use crate::fault::ArchFault;
use fab_text::{Line, Lines, NumFault, decimal};
use std::alloc::{AllocError, Global};

fn word_at<'a>(line: &Line<'a>, i: usize) -> Option<&'a [u8]>
    ensures { option_map (λ w. w.now) result ≡ slice_get (shown line.now).words i }
{
    line.words.get(i).copied()
}

fn is_word(word: Option<&[u8]>, name: &[u8]) -> bool
    ensures { result ≡ is_word (option_map (λ w. w.now) word.entry) name.now }
{
    match word {
        Some(word) => word == name,
        None => false,
    }
}

#[tactic(auto, unfolding(crate::specs::Arch::is_io_rat))]
fn is_io_rat(line: &Line) -> bool
    ensures { result ≡ is_io_rat (shown line.now) }
{
    is_word(word_at(line, 0), b"io_rat")
}

#[tactic(auto, unfolding(crate::specs::Arch::is_inpin))]
fn is_inpin(line: &Line) -> bool
    ensures { result ≡ is_inpin (shown line.now) }
{
    is_word(word_at(line, 0), b"inpin")
}

#[tactic(auto, unfolding(crate::specs::Arch::is_outpin))]
fn is_outpin(line: &Line) -> bool
    ensures { result ≡ is_outpin (shown line.now) }
{
    is_word(word_at(line, 0), b"outpin")
}

fn is_side(word: &[u8]) -> bool
    ensures { result ≡ is_side word.now }
{
    word == b"top".as_slice()
        || word == b"bottom".as_slice()
        || word == b"left".as_slice()
        || word == b"right".as_slice()
}

fn all_sides(words: &[&[u8]]) -> bool
    ensures { result ≡ list_all (λ w. is_side w.now) words.now }
{
    words.iter().all(|word| is_side(word))
}

/// Whether there is at least one word and all of them are sides.
fn are_sides(words: &[&[u8]]) -> bool
    ensures { result ≡ are_sides (map (λ w. w.now) words.now) }
{
    all_sides(words) && !words.is_empty()
}

fn number_of(line: u64, low: u64, high: u64, word: Option<&[u8]>) -> Result<u64, ArchFault>
    ensures { result ≡ number_of line low high (option_map (λ w. w.now) word.entry) }
{
    let Some(word) = word else {
        return Err(ArchFault::BadNumber(line));
    };
    match decimal(word, 0) {
        Ok(value) => {
            if value < low {
                Err(ArchFault::BadNumber(line))
            } else if value > high {
                Err(ArchFault::TooLarge(line))
            } else {
                Ok(value)
            }
        }
        Err(NumFault::TooLarge) => Err(ArchFault::TooLarge(line)),
        Err(_) => Err(ArchFault::BadNumber(line)),
    }
}

/// The words without a leading `global`.
fn without_global<'a, 'b>(words: &'b [&'a [u8]]) -> &'b [&'a [u8]]
    ensures { map (λ w. w.now) result.now ≡ without_global (map (λ w. w.now) words.now) }
{
    match words {
        [first, rest @ ..] => {
            if *first == b"global".as_slice() {
                rest
            } else {
                words
            }
        }
        [] => words,
    }
}

/// Checks a pin's line, apart from what the lines before it mean.
#[tactic(auto, unfolding(crate::specs::Arch::pin_fault))]
fn check_pin(line: &Line) -> Result<(), ArchFault>
    ensures { pin_fault (shown line.now) ≡ err_of result }
{
    if !is_word(word_at(line, 1), b"class:") {
        return Err(ArchFault::BadPinLine(line.number));
    }
    number_of(line.number, 0, 65535, word_at(line, 2))?;
    let from = line.words.len().min(3);
    if are_sides(without_global(&line.words[from..])) {
        Ok(())
    } else {
        Err(ArchFault::BadPinLine(line.number))
    }
}

/// What the lines read so far mean.
#[derive(Drop)]
struct Seen {
    io_rat: Option<u16>,
    pins: Vec<PinKind>,
}

#[tactic(auto, unfolding(crate::specs::Arch::ratio_of))]
fn ratio_of(line: &Line) -> Result<u16, ArchFault>
    ensures { result ≡ ratio_of (shown line.now) }
{
    let value = number_of(line.number, 1, 64, word_at(line, 1))?;
    Ok(value as u16)
}

impl Seen {
    /// Checks a line that follows the lines read so far. Allocates nothing, so the fault of a faulty line is always returned.
    #[tactic(auto, unfolding(crate::specs::Arch::line_fault))]
    fn check_line(&self, line: &Line) -> Result<(), ArchFault>
        ensures { line_fault (is_some self.now.io_rat) (length self.now.pins.items)
            (shown line.now) ≡ err_of result }
    {
        if is_io_rat(line) {
            if self.io_rat.is_some() {
                return Err(ArchFault::RepeatedIoRat(line.number));
            }
            ratio_of(line)?;
            return Ok(());
        }
        if !is_inpin(line) && !is_outpin(line) {
            return Ok(());
        }
        check_pin(line)?;
        if self.pins.len() >= 1024 {
            return Err(ArchFault::TooLarge(line.number));
        }
        Ok(())
    }

    /// Adds what a checked line means. Fails only if memory runs out.
    fn add_line(&mut self, line: &Line) -> Result<(), AllocError>
        ensures io_rat { OnOk result
            (self.new.io_rat ≡ ratio_after self.old.io_rat (shown line.now)) }
        ensures pins { OnOk result
            (self.new.pins.items ≡ self.old.pins.items ++ pins_in (shown line.now)) }
    {
        if is_io_rat(line) {
            self.io_rat = ratio_of(line).ok();
        } else if is_inpin(line) {
            self.pins.push(PinKind::Reads)?;
        } else if is_outpin(line) {
            self.pins.push(PinKind::Drives)?;
        }
        Ok(())
    }

    /// The architecture that the checked lines mean. Allocates nothing, so if the text lacks a line that it needs, that fault is always
    /// returned.
    fn finish(self) -> Result<Arch, ArchFault>
        requires ratio { IfSome self.io_rat (λ r. (1 ≤ r) × (r ≤ 64)) }
        requires few { length self.pins.items ≤ 1024 }
        ensures io_rat { IfOk result (λ a. self.io_rat ≡ Some a.io_rat) }
        ensures pins { IfOk result (λ a. a.pins.items ≡ self.pins.items) }
        ensures clean { OnOk result (end_fault self.io_rat (length self.pins.items) ≡ None) }
        ensures fault { IfErr result (λ e.
            end_fault self.io_rat (length self.pins.items) ≡ Some e) }
    {
        let Seen { io_rat, pins } = self;
        let Some(io_rat) = io_rat else {
            return Err(ArchFault::NoIoRat);
        };
        if pins.is_empty() {
            return Err(ArchFault::NoPins);
        }
        Ok(Arch { io_rat, pins })
    }
}

/// Reads the architecture that a text means, or returns its first fault: that of the first faulty line, or else that of the whole text.
pub fn read_arch(alloc: Global, bytes: &[u8]) -> Result<Arch, ArchFault>
    // If an architecture is returned, the lines mean it.
    ensures found { IfOk result (λ a. IsArch (lines bytes.now) a.io_rat a.pins.items) }
    // If the lines mean an architecture, it is returned, unless memory runs out.
    ensures only { (io_rat : ℕ) (pins : List PinKind) → IsArch (lines bytes.now) io_rat pins →
        MatchResult result (λ a. (a.io_rat ≡ io_rat) × (a.pins.items ≡ pins)) (λ e. e ≡ NoMemory) }
    // An error is the first fault, or that memory ran out.
    ensures fault { IfErr result (λ e. FaultIs e (first_fault (lines bytes.now))) }
{
    let mut left = Lines::new(alloc, bytes);
    read(alloc, &mut left)
}

/// Reads the lines that are left. If memory runs out, no line that was taken has a fault.
fn read(alloc: Global, left: &mut Lines) -> Result<Arch, ArchFault>
    ensures found { IfOk result (λ a. IsArch left.old a.io_rat a.pins.items) }
    ensures fault { IfErr result (λ e. FaultIs e (first_fault left.old)) }
    ensures memory { IfErr result (λ e. e ≡ NoMemory → TookNoFault fault_of left.old left.new) }
{
    let mut seen = Seen {
        io_rat: None,
        pins: Vec::new(alloc),
    };
    while let Some(line) = left.next()? {
        seen.check_line(&line)?;
        seen.add_line(&line)?;
    }
    seen.finish()
}

/// The law that the lines of a text either mean an architecture or have a first fault, and never both.
pub fn texts_mean_or_fault()
    ensures { (ls : List TextLine) → MeansOrFaults ls }
{}
