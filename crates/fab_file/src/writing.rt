//! Writes placements as texts, always in the same form.

ghost use Rattle.std.specs.Prelude.{◌≡◌, ◌≢◌, ◌↔◌, ◌<◌, ◌++◌, [], not, length, codes, false, Err, IfErr, IfOk, OnOk, slice_index_or};
ghost use Rattle.std.specs.List.{flat_map, list_any};
ghost use Rattle.std.specs.Io.KnownBytes.{Appends};
ghost use Rattle.fab_text.specs.Lines.{is_continued, lines};
ghost use Rattle.fab_text.specs.LineWords.{is_mark};
ghost use Rattle.fab_arch.specs.Grid.{AreLimits};
ghost use Rattle.fab_net.specs.Netlist.{IsLawful};
ghost use Rattle.fab_site.specs.Placement.{IsLegal};
ghost use Rattle.fab_file.specs.declared.fault.PlaceFault.TheVariants.{BadLabel, Write};
ghost use Rattle.fab_file.specs.Place.{StandsFor};
ghost use Rattle.fab_file.specs.ReadsBack.{ReadBack};
ghost use Rattle.fab_file.specs.Written.{is_label, are_labels, files_text, size_text, column, block_text, head_lines, block_lines, ended, place_text, IsCut, IsWriteFault, failed_with};

use crate::fault::PlaceFault;
use fab_arch::{Grid, Site};
use fab_net::{BlockId, Design};
use fab_site::Placement;
use fab_text::{Sink, WriteFault, push_number, write_whole};
use std::alloc::{AllocError, Global};

/// The names that a header has for the netlist file and the architecture file.
#[derive(Clone, Copy, Debug, PartialEq, Eq)]
pub struct Labels<'a> {
    pub net: &'a [u8],
    pub arch: &'a [u8],
}

impl From<WriteFault> for PlaceFault {
    ghost from_gives = { λ _ e. e ≡ Write };

    fn from(_fault: WriteFault) -> PlaceFault {
        PlaceFault::Write
    }
}

fn is_mark(byte: u8) -> bool
    ensures { result ≡ is_mark byte }
{
    (byte == b' ' || byte == b'\t' || byte == b'\r') || byte == b'\n' || byte == b'#'
}

fn has_mark(label: &[u8]) -> bool
    ensures { result ≡ list_any is_mark label.now }
{
    label.iter().any(|byte| is_mark(*byte))
}

#[tactic(auto, unfolding(fab_text::specs::Lines::is_continued))]
fn ends_with_backslash(label: &[u8]) -> bool
    ensures { result ≡ is_continued label.now }
{
    match label.last() {
        Some(byte) => *byte == b'\\',
        None => false,
    }
}

fn is_label(label: &[u8]) -> bool
    ensures { result ≡ is_label label.now }
{
    (!label.is_empty() && !has_mark(label)) && !ends_with_backslash(label)
}

/// Whether both names can be part of a header. Each must be one word without a `#`, and its last byte must not be a backslash.
pub fn are_labels(labels: &Labels) -> bool
    ensures { result ≡ are_labels labels.now.net.now labels.now.arch.now }
{
    is_label(labels.net) && is_label(labels.arch)
}

/// Appends the first line of the header.
fn push_files(text: &mut Vec<u8>, labels: &Labels) -> Result<(), AllocError>
    ensures { OnOk result
        (text.new.items ≡
        text.old.items ++ ended (files_text labels.now.net.now labels.now.arch.now)) }
{
    text.extend_from_slice(b"Netlist file: ")?;
    text.extend_from_slice(labels.net)?;
    text.extend_from_slice(b"   Architecture file: ")?;
    text.extend_from_slice(labels.arch)?;
    text.extend_from_slice(b"\n")?;
    Ok(())
}

/// Appends the second line of the header.
fn push_size(text: &mut Vec<u8>, grid: &Grid) -> Result<(), AllocError>
    ensures text { OnOk result (text.new.items ≡ text.old.items ++ ended (size_text grid.now)) }
    ensures limits { OnOk result (AreLimits grid.now.nx grid.now.ny grid.now.io_rat) }
{
    text.extend_from_slice(b"Array size: ")?;
    push_number(text, u64::from(grid.nx()))?;
    text.extend_from_slice(b" x ")?;
    push_number(text, u64::from(grid.ny()))?;
    text.extend_from_slice(b" logic blocks")?;
    text.extend_from_slice(b"\n")?;
    Ok(())
}

/// Appends a tab and a number.
fn push_column(text: &mut Vec<u8>, n: u16) -> Result<(), AllocError>
    ensures { OnOk result (text.new.items ≡ text.old.items ++ column n) }
{
    text.extend_from_slice(b"\t")?;
    push_number(text, u64::from(n))?;
    Ok(())
}

/// Appends the line of a block.
fn push_block(text: &mut Vec<u8>, name: &[u8], site: Site, number: u64) -> Result<(), AllocError>
    ensures { OnOk result
        (text.new.items ≡ text.old.items ++ ended (block_text name.now site number)) }
{
    text.extend_from_slice(name)?;
    push_column(text, site.x)?;
    push_column(text, site.y)?;
    push_column(text, site.sub)?;
    text.extend_from_slice(b"\t#")?;
    push_number(text, number)?;
    text.extend_from_slice(b"\n")?;
    Ok(())
}

/// The header of a text, the empty line and the comments after it.
fn head_of(alloc: Global, labels: &Labels, grid: &Grid) -> Result<Vec<u8>, AllocError>
    ensures text { IfOk result (λ v.
        v.items ≡ flat_map ended (head_lines labels.now.net.now labels.now.arch.now grid.now)) }
    ensures limits { OnOk result (AreLimits grid.now.nx grid.now.ny grid.now.io_rat) }
{
    let mut text = Vec::new(alloc);
    push_files(&mut text, labels)?;
    push_size(&mut text, grid)?;
    text.extend_from_slice(
        b"\n#block name\tx\ty\tsubblk\tblock number\n#----------\t--\t--\t------\t------------\n",
    )?;
    Ok(text)
}

/// Appends the lines of all blocks.
fn push_blocks(text: &mut Vec<u8>, design: &Design, placement: &Placement) -> Result<(), AllocError>
    requires { length placement.now.sites ≡ length design.now.kinds }
    ensures text { OnOk result
        (text.new.items ≡
        text.old.items ++ flat_map ended (block_lines design.now placement.now.sites)) }
    ensures lawful { OnOk result (IsLawful design.now) }
{
    for b in 0..design.blocks() {
        let block = BlockId(b as u32);
        push_block(text, design.name(block), placement.site_of(block), b as u64)?;
    }
    Ok(())
}

/// The text of a placement.
fn text_of(
    alloc: Global,
    labels: &Labels,
    design: &Design,
    grid: &Grid,
    placement: &Placement,
) -> Result<Vec<u8>, AllocError>
    requires { length placement.now.sites ≡ length design.now.kinds }
    ensures text { IfOk result (λ v.
        v.items ≡ place_text labels.now.net.now labels.now.arch.now design.now grid.now
        placement.now.sites) }
    ensures lawful { OnOk result (IsLawful design.now) }
    ensures limits { OnOk result (AreLimits grid.now.nx grid.now.ny grid.now.io_rat) }
{
    let mut text = head_of(alloc, labels, grid)?;
    push_blocks(&mut text, design, placement)?;
    Ok(text)
}

/// Writes the text of a placement. Its header has the names in `labels`, and its blocks are in order of number. The placement must be
/// legal. If a label is bad or memory runs out, nothing is written. If the writer fails, only a beginning of the text has been written.
pub fn write_place<W: Sink>(
    alloc: Global,
    out: &mut W,
    labels: &Labels,
    design: &Design,
    grid: &Grid,
    placement: &Placement,
) -> Result<(), PlaceFault>
    requires { IsLegal design.now grid.now [] placement.now.sites }
    // If there is no fault, the whole text has been written.
    ensures whole { OnOk result
        (Appends (W.contents out.old) (W.contents out.new)
        (place_text labels.now.net.now labels.now.arch.now design.now grid.now
        placement.now.sites)) }
    // The text reads back: it stands for the placement.
    ensures back { OnOk result
        (StandsFor design.now grid.now
        (lines (place_text labels.now.net.now labels.now.arch.now design.now grid.now
        placement.now.sites)) placement.now.sites) }
    // `BadLabel` is returned exactly if a label cannot be part of a header.
    ensures label { (result ≡ Err BadLabel) ↔
        (are_labels labels.now.net.now labels.now.arch.now ≡ false) }
    ensures only { IfErr result IsWriteFault }
    // If a fault is not the writer's, nothing has been written. If the writer failed, it has taken a beginning of the text, and not all of
    // it.
    ensures silent { IfErr result (λ e. e ≢ Write → W.contents out.new ≡ W.contents out.old) }
    ensures cut { IfErr result (λ e.
        e ≡ Write →
        IsCut (place_text labels.now.net.now labels.now.arch.now design.now grid.now
        placement.now.sites) (W.contents out.old) (W.contents out.new)) }
    // The writer counts one more failure exactly if the result is `Write`.
    ensures sound { OnOk result (W.failed out.new ≡ W.failed out.old) }
    ensures failed { IfErr result (λ e. W.failed out.new ≡ failed_with e (W.failed out.old)) }
{
    if !are_labels(labels) {
        return Err(PlaceFault::BadLabel);
    }
    let text = text_of(alloc, labels, design, grid, placement)?;
    write_whole(out, &text)?;
    Ok(())
}

/// The law that the text of a legal placement stands for that placement, so that `read_place` returns it. This holds for every design and
/// all labels that can be part of a header.
pub fn written_texts_read_back()
    ensures { ReadBack }
{}
