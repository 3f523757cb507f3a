//! Reads a netlist text line by line, keeps what the lines read so far mean, and at the end makes the design.

ghost use Rattle.std.specs.Prelude.{◌≡◌, ℕ, ◌++◌, [], ◌≤◌, ◌<◌, ◌^◌, drop, length, map, slice_get, IfOk, IfErr, OnOk, OnErr, MatchResult, List, None, IsTrue, count_by};
ghost use Rattle.std.specs.Option.{option_map};
ghost use Rattle.std.specs.List.{AllByRecursion};
ghost use Rattle.fab_arch.specs.declared.architecture.PinKind.{PinKind};
ghost use Rattle.fab_text.specs.Lines.{TextLine, lines};
ghost use Rattle.fab_text.specs.Shown.{shown};
ghost use Rattle.fab_text.specs.FirstFault.{TookNoFault};
ghost use Rattle.fab_text.specs.LineWords.{AreWords};
ghost use Rattle.fab_net.specs.Netlist.{Netlist};
ghost use Rattle.fab_net.specs.Names.{number_of};
ghost use Rattle.fab_net.specs.Text.{head_word, head_of, is_driver, drives_at, entries, entries_in, pins_at, pin_count, name_at, net_names, IsNetlist};
ghost use Rattle.fab_net.specs.Faults.{are_few, driver_fault, fault_of, first_fault, MeansOrFaults, FaultIs};
ghost use Rattle.fab_net.specs.Said.{last_kind, kind_or_pad, pins_more, opens_fault, pins_fault, said_fault, end_fault, err_of, said, netlist_said, opened, with_pins, with_globals, after, IsReady};
ghost use Rattle.fab_net.specs.declared.fault.NetFault.TheVariants.{NoMemory};

use crate::blocks::{gather_nets, gather_pins};
use crate::design::Design;
use crate::fault::NetFault;
use crate::names::{BlockNames, is_open};
use crate::netlist_types::{BlockKind, Head};
use crate::pins::Pins;
use fab_arch::{Arch, PinKind};
use fab_text::{Line, Lines, Span};
use std::alloc::{AllocError, Global};
use std::marker::Model;

fn word_at<'a>(line: &Line<'a>, i: usize) -> Option<&'a [u8]>
    ensures { option_map (λ w. w.now) result ≡ slice_get (shown line.now).words i }
{
    line.words.get(i).copied()
}

fn head_word(word: Option<&[u8]>) -> Head
    ensures { result ≡ head_word (option_map (λ w. w.now) word.entry) }
{
    let Some(word) = word else {
        return Head::Unknown;
    };
    if word == b".input".as_slice() {
        Head::Opens(BlockKind::InputPad)
    } else if word == b".output".as_slice() {
        Head::Opens(BlockKind::OutputPad)
    } else if word == b".clb".as_slice() {
        Head::Opens(BlockKind::Logic)
    } else if word == b"pinlist:".as_slice() {
        Head::Pinlist
    } else if word == b"subblock:".as_slice() {
        Head::Subblock
    } else if word == b".global".as_slice() {
        Head::Global
    } else {
        Head::Unknown
    }
}

#[tactic(auto, unfolding(crate::specs::Text::head_of))]
fn head_of(line: &Line) -> Head
    ensures { result ≡ head_of (shown line.now) }
{
    head_word(word_at(line, 0))
}

fn drives_at(arch: &[PinKind], kind: BlockKind, i: usize) -> bool
    ensures { result ≡ drives_at arch.now kind i }
{
    match kind {
        BlockKind::InputPad => true,
        BlockKind::OutputPad => false,
        BlockKind::Logic => match arch.get(i) {
            Some(PinKind::Drives) => true,
            Some(PinKind::Reads) => false,
            None => false,
        },
    }
}

fn last_kind(kinds: &[BlockKind]) -> Option<BlockKind>
    ensures { result ≡ last_kind kinds.now }
{
    kinds.last().copied()
}

fn kind_or_pad(kind: Option<BlockKind>) -> BlockKind
    ensures { result ≡ kind_or_pad kind }
{
    kind.unwrap_or(BlockKind::InputPad)
}

/// How many pins a block has.
fn pin_count(arch: &[PinKind], kind: BlockKind) -> usize
    ensures { result ≡ pin_count arch.now kind }
{
    match kind {
        BlockKind::InputPad => 1,
        BlockKind::OutputPad => 1,
        BlockKind::Logic => arch.len(),
    }
}

/// Adds those of a block's pins that are on nets. If memory runs out, only some of them are added.
fn push_entries<'a>(
    arch: &[PinKind],
    kind: BlockKind,
    block: u32,
    words: &[&'a [u8]],
    spans: &[Span],
    pins: &mut Pins<'a>,
) -> Result<(), AllocError>
    requires placed { length words.now ≡ length spans.now }
    requires few { length words.now ≤ 1024 }
    requires few_pins { length pins.old ≤ 1048576 }
    ensures added { OnOk result
        (pins.new ≡ pins.old ++
        pins_at arch.now kind block 0 (entries (map (λ w. w.now) words.now) spans.now)) }
    ensures few { length pins.new ≤
        length (pins.old ++
        pins_at arch.now kind block 0 (entries (map (λ w. w.now) words.now) spans.now)) }
{
    for i in 0..words.len() {
        if !is_open(words[i]) {
            let drives = drives_at(arch, kind, i);
            pins.add(words[i], block, i as u16, drives, spans[i])?;
        }
    }
    Ok(())
}

/// The name of the block that a line opens.
fn name_at<'a>(line: &Line<'a>) -> &'a [u8]
    requires { 1 < length line.now.words.items }
    ensures { result.now ≡ name_at (shown line.now) }
{
    line.words[1]
}

/// How many entries a line has.
fn entry_count(line: &Line) -> usize
    ensures { result ≡ length (entries_in (shown line.now)) }
{
    line.words.len().saturating_sub(1)
}

fn rest_words<'a, 'b>(line: &'b Line<'a>) -> &'b [&'a [u8]]
    ensures { map (λ w. w.now) result.now ≡ drop 1 (shown line.now).words }
{
    let from = line.words.len().min(1);
    &line.words[from..]
}

fn rest_spans<'b>(line: &'b Line) -> &'b [Span]
    ensures { result.now ≡ drop 1 (shown line.now).spans }
{
    let from = line.spans.len().min(1);
    &line.spans[from..]
}

/// Adds the pins that a pinlist line gives the last block. If memory runs out, only some of them are added.
fn add_pins<'a>(
    arch: &[PinKind],
    kinds: &[BlockKind],
    pins: &mut Pins<'a>,
    line: &Line<'a>,
) -> Result<(), AllocError>
    requires blocks { length kinds.now ≤ 65535 }
    requires few { length (entries_in (shown line.now)) ≤ 1024 }
    requires few_pins { length pins.old ≤ 1048576 }
    ensures added { OnOk result
        (pins.new ≡ pins.old ++ pins_more arch.now kinds.now (shown line.now)) }
    ensures few { length pins.new ≤
        length (pins.old ++ pins_more arch.now kinds.now (shown line.now)) }
{
    let block = kinds.len().saturating_sub(1) as u32;
    let kind = kind_or_pad(last_kind(kinds));
    let words = rest_words(line);
    let spans = rest_spans(line);
    push_entries(arch, kind, block, words, spans, pins)
}

/// Checks that each net has exactly one driver, or returns the fault of the first that does not. `counts` are the numbers of drivers.
fn check_drivers(counts: &[u32], pins: &Pins) -> Result<(), NetFault>
    requires counts { counts.now ≡ map (λ name.
        count_by (is_driver name) pins.now) (net_names pins.now) }
    requires few { length pins.now < 2 ^ 32 }
    ensures { driver_fault pins.now (net_names pins.now) ≡ err_of result }
{
    for net in 0..counts.len() {
        if counts[net] != 1 {
            let span = pins.first_span(net as u32);
            return Err(if counts[net] == 0 {
                NetFault::NoDriver(span)
            } else {
                NetFault::TwoDrivers(span)
            });
        }
    }
    Ok(())
}

/// What the lines read so far mean.
struct Seen<'a> {
    kinds: Vec<BlockKind>,
    names: BlockNames,
    awaiting: Option<Span>,
    pins: Pins<'a>,
    globals: Vec<&'a [u8]>,
}

impl<'a> Model for Seen<'a> {
    ghost use Rattle.std.specs.Prelude.{◌≡◌, ◌≤◌, length, map};
    ghost use Rattle.fab_net.specs.Said.{Said};

    ghost Value = { Said };

    ghost view = { λ a.
        record {
          kinds = a.kinds.items;
          names = a.names;
          awaiting = a.awaiting;
          pins = a.pins;
          globals = map (λ w. w.now) a.globals.items;
        } };

    ghost invariant = { λ a.
        (length a.kinds.items ≡ length a.names) × (length a.names ≤ 65535) ×
        (length a.pins ≤ 1048576) };
}

impl<'a> Drop for Seen<'a> {
    // A `drop` by hand is proved once; a derived `drop` is proved again wherever the value goes out of scope.
    fn drop(self) {
        let Seen {
            kinds: _,
            names: _,
            awaiting: _,
            pins: _,
            globals: _,
        } = self;
    }
}

/// Each line takes two steps. First it is checked. The check allocates nothing, so the fault of a faulty line is always returned. Then the
/// line is added. That fails only if memory runs out.
impl<'a> Seen<'a> {
    /// Checks that a line may open a block.
    fn check_open(&self, line: &Line) -> Result<(), NetFault>
        ensures { opens_fault self.now (shown line.now) ≡ err_of result }
    {
        if let Some(span) = self.awaiting {
            return Err(NetFault::MissingPinlist(span));
        }
        if line.words.len() < 2 {
            return Err(NetFault::NoName(line.number));
        }
        if self.names.number_of(name_at(line)).is_some() {
            return Err(NetFault::DuplicateBlock(line.number));
        }
        if self.names.len() >= 65535 {
            return Err(NetFault::TooLarge(line.number));
        }
        Ok(())
    }

    /// Adds the block that a line opens. Memory for its kind is reserved first, so if memory runs out, nothing changes.
    fn open(&mut self, alloc: Global, kind: BlockKind, line: &Line) -> Result<(), AllocError>
        requires named { 1 < length line.now.words.items }
        requires new { number_of (name_at (shown line.now)) self.old.names ≡ None }
        requires few { length self.old.names < 65535 }
        ensures opened { OnOk result (self.new ≡ opened self.old kind (shown line.now)) }
        ensures err { OnErr result (self.new ≡ self.old) }
    {
        self.kinds.reserve(1)?;
        self.names.push(alloc, name_at(line))?;
        self.kinds.push_reserved(kind);
        self.awaiting = Some(line.spans[1]);
        Ok(())
    }

    /// Checks that a line may be the pinlist of the last block.
    fn check_pins(&self, arch: &[PinKind], line: &Line) -> Result<(), NetFault>
        requires { length arch.now ≤ 1024 }
        ensures { pins_fault arch.now self.now (shown line.now) ≡ err_of result }
    {
        if self.awaiting.is_none() {
            return Err(NetFault::PinlistWithoutBlock(line.number));
        }
        if entry_count(line) != pin_count(arch, kind_or_pad(last_kind(&self.kinds))) {
            return Err(NetFault::PinCount(line.number));
        }
        if !self.pins.have_room(rest_words(line)) {
            return Err(NetFault::TooLarge(line.number));
        }
        Ok(())
    }

    /// Adds the pins of the last block.
    fn take_pins(&mut self, arch: &[PinKind], line: &Line<'a>) -> Result<(), AllocError>
        requires entries { length (entries_in (shown line.now)) ≤ 1024 }
        requires few { IsTrue
            (are_few (self.old.pins ++ pins_more arch.now self.old.kinds (shown line.now))) }
        ensures { OnOk result (self.new ≡ with_pins arch.now self.old (shown line.now)) }
    {
        add_pins(arch, &self.kinds, &mut self.pins, line)?;
        self.awaiting = None;
        Ok(())
    }

    /// Adds the names of global nets.
    fn take_globals(&mut self, line: &Line<'a>) -> Result<(), AllocError>
        ensures { OnOk result (self.new ≡ with_globals self.old (shown line.now)) }
    {
        self.globals.extend_from_slice(rest_words(line))
    }

    /// Checks a line that follows the lines read so far.
    fn check_line(&self, arch: &[PinKind], line: &Line) -> Result<(), NetFault>
        requires { length arch.now ≤ 1024 }
        ensures { said_fault arch.now self.now (shown line.now) ≡ err_of result }
    {
        match head_of(line) {
            Head::Opens(_) => self.check_open(line),
            Head::Pinlist => self.check_pins(arch, line),
            Head::Subblock => {
                if last_kind(&self.kinds) == Some(BlockKind::Logic) {
                    Ok(())
                } else {
                    Err(NetFault::SubblockWithoutLogic(line.number))
                }
            }
            Head::Global => Ok(()),
            Head::Unknown => Err(NetFault::UnknownWord(line.number)),
        }
    }

    /// Adds what a checked line means.
    fn take_line(
        &mut self,
        alloc: Global,
        arch: &[PinKind],
        line: &Line<'a>,
    ) -> Result<(), AllocError>
        requires arch { length arch.now ≤ 1024 }
        requires lawful { said_fault arch.now self.old (shown line.now) ≡ None }
        ensures { OnOk result (self.new ≡ after arch.now self.old (shown line.now)) }
    {
        match head_of(line) {
            Head::Opens(kind) => self.open(alloc, kind, line),
            Head::Pinlist => self.take_pins(arch, line),
            Head::Subblock => Ok(()),
            Head::Global => self.take_globals(line),
            Head::Unknown => Ok(()),
        }
    }

    /// Checks the whole text, after all its lines are checked. Only the count of each net's drivers allocates.
    fn check_end(&self, alloc: Global) -> Result<(), NetFault>
        ensures ok { OnOk result (end_fault self.now ≡ None) }
        ensures fault { IfErr result (λ e. FaultIs e (end_fault self.now)) }
        ensures memory { IfErr result (λ e. e ≡ NoMemory → self.now.awaiting ≡ None) }
    {
        if let Some(span) = self.awaiting {
            return Err(NetFault::MissingPinlist(span));
        }
        let drivers = self.pins.driver_counts(alloc)?;
        check_drivers(&drivers, &self.pins)
    }

    /// The design that the lines mean. The lines and the whole text are checked.
    fn design(self, alloc: Global) -> Result<Design, AllocError>
        requires ready { IsReady self }
        requires lawful { end_fault self ≡ None }
        ensures { IfOk result (λ d. d ≡ netlist_said self.entry) }
    {
        let terminals = self.pins.terminals(alloc)?;
        let marks = self.pins.marks(alloc, &self.globals)?;
        let nets = gather_nets(alloc, self.kinds.len(), &terminals, &marks)?;
        let counts = gather_pins(alloc, self.kinds.len(), &terminals, &marks)?;
        let Seen {
            kinds,
            names,
            awaiting: _,
            pins: _,
            globals: _,
        } = self;
        Ok(Design::new(kinds, names, terminals, marks, nets, counts))
    }

    /// Checks the whole text, and returns the design that the lines mean.
    fn finish(self, alloc: Global) -> Result<Design, NetFault>
        requires { IsReady self }
        ensures sound { OnOk result (end_fault self.entry ≡ None) }
        ensures found { IfOk result (λ d. d ≡ netlist_said self.entry) }
        ensures fault { IfErr result (λ e. FaultIs e (end_fault self.entry)) }
        ensures memory { IfErr result (λ e. e ≡ NoMemory → self.entry.awaiting ≡ None) }
    {
        self.check_end(alloc)?;
        Ok(self.design(alloc)?)
    }
}

/// Returns what the lines that are left mean, or their first fault. If memory runs out, no line that was taken has a fault.
fn read<'a>(alloc: Global, left: &mut Lines<'a>, arch: &Arch) -> Result<Seen<'a>, NetFault>
    requires words { AllByRecursion (λ l. AreWords l.words) left.old }
    ensures said { IfOk result (λ r. r ≡ said arch.now.pins.items left.old) }
    ensures ready { IfOk result (λ r. IsReady r) }
    ensures clean { OnOk result
        (first_fault arch.now.pins.items left.old ≡
        end_fault (said arch.now.pins.items left.old)) }
    ensures fault { IfErr result (λ e. FaultIs e (first_fault arch.now.pins.items left.old)) }
    ensures memory { IfErr result (λ e.
        e ≡ NoMemory → TookNoFault (fault_of arch.now.pins.items) left.old left.new) }
{
    let mut seen = Seen {
        kinds: Vec::new(alloc),
        names: BlockNames::new(alloc),
        awaiting: None,
        pins: Pins::new(alloc),
        globals: Vec::new(alloc),
    };
    let mut done = None;
    while let Some(line) = left.next_in_room_of(done)? {
        seen.check_line(&arch.pins, &line)?;
        seen.take_line(alloc, &arch.pins, &line)?;
        done = Some(line);
    }
    Ok(seen)
}

/// Reads the design that a netlist text means with the architecture `arch`, or returns the text's first fault: that of the first faulty
/// line, or else that of the whole text.
pub fn read_net(alloc: Global, bytes: &[u8], arch: &Arch) -> Result<Design, NetFault>
    // If a design is returned, the lines mean it.
    ensures found { IfOk result (λ d. IsNetlist arch.now.pins.items (lines bytes.now) d) }
    // If the lines mean a design, it is returned, unless memory runs out.
    ensures only { (d : Netlist) → IsNetlist arch.now.pins.items (lines bytes.now) d →
        MatchResult result (λ r. r ≡ d) (λ e. e ≡ NoMemory) }
    // An error is the first fault, or that memory ran out.
    ensures fault { IfErr result (λ e.
        FaultIs e (first_fault arch.now.pins.items (lines bytes.now))) }
{
    let mut left = Lines::new(alloc, bytes);
    let seen = read(alloc, &mut left, arch)?;
    seen.finish(alloc)
}

/// The law that the lines of a text either mean a netlist or have a first fault, and never both.
pub fn texts_mean_or_fault()
    ensures { (arch : List PinKind) (ls : List TextLine) → MeansOrFaults arch ls }
{}
