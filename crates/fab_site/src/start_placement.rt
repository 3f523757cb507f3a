//! The start placement: given blocks are at their sites, and each other block draws a site.

ghost use Rattle.std.specs.Prelude.{◌≡◌, ◌++◌, ℕ, ◌+◌, ◌^◌, ◌<◌, ◌≤◌, [], ◌∷◌, length, map, slice_get, slice_index_or, Some, IsTrue, IfOk, OnOk};
ghost use Rattle.std.specs.List.{range_with_len};
ghost use Rattle.fab_arch.specs.declared.array.Site.{Site};
ghost use Rattle.fab_arch.specs.Grid.{Holds};
ghost use Rattle.fab_net.specs.Netlist.{is_logic, logic_count, pad_count};
ghost use Rattle.fab_site.specs.Pins.{ArePins, given_at};
ghost use Rattle.fab_site.specs.Placement.{IsLegal, fixed_at, site as site_at, site_of as site_of_block};
ghost use Rattle.fab_site.specs.Start.{deal as dealt, drawing, entry_of, given_sites, is_pad, logic_sites, pad_sites, sites_left, start_sites, waiting, without};

use crate::drafts::Draft;
use crate::pins::Pins;
use crate::places::Placement;
use crate::random_words::{Words, pick};
use fab_arch::{Grid, Site};
use fab_net::{BlockId, BlockKind, Design};
use std::alloc::{AllocError, Global};

/// Makes the start placement. The array must have a site for each block. Fixed and begun blocks are at their sites. Each other block, in
/// order of number, draws one of the remaining sites of its kind with the next start word; the last site of that list then fills the gap.
/// Takes time linear in blocks and sites.
pub fn start<W: Words>(
    alloc: Global,
    design: &Design,
    grid: &Grid,
    pins: &Pins,
    words: &W,
) -> Result<Placement, AllocError>
    requires room { Holds grid.now (logic_count design.now) (pad_count design.now) }
    requires pins { ArePins design.now grid.now pins.now.fixed pins.now.begun }
    ensures sites { IfOk result (λ p.
        p.sites ≡ start_sites design.now grid.now pins.now.fixed pins.now.begun
        (W.starts words.now)) }
    ensures grid { IfOk result (λ p. p.grid ≡ grid.now) }
    ensures legal { IfOk result (λ p. IsLegal design.now grid.now pins.now.fixed p.sites) }
    ensures begun { IfOk result (λ p.
        (b : ℕ) (s : Site) → fixed_at pins.now.begun b ≡ Some s → slice_get p.sites b ≡ Some s) }
{
    let given = given(alloc, design, grid, pins)?;
    let logic = logic_left(alloc, grid, &given)?;
    let pads = pads_left(alloc, grid, &given)?;
    let sites = deal(alloc, design, &given, words, logic, pads)?;
    Placement::of_sites(alloc, design, grid, &sites)
}

/// The site where a block is fixed or begun, if any.
fn given_site(pins: &Pins, block: BlockId) -> Option<Site>
    ensures { result ≡ given_at pins.now.fixed pins.now.begun block.0 }
{
    match pins.fixed.site_of(block) {
        Some(site) => Some(site),
        None => pins.begun.site_of(block),
    }
}

/// A draft with the given blocks at their sites.
fn given(alloc: Global, design: &Design, grid: &Grid, pins: &Pins) -> Result<Draft, AllocError>
    requires { ArePins design.now grid.now pins.now.fixed pins.now.begun }
    ensures grid { IfOk result (λ d. d.grid ≡ grid.now) }
    ensures sites { IfOk result (λ d.
        d.sites ≡ given_sites design.now pins.now.fixed pins.now.begun) }
{
    let blocks = design.blocks();
    let mut draft = Draft::new(alloc, blocks, grid)?;
    for number in 0..blocks {
        let block = BlockId(number as u32);
        if let Some(site) = given_site(pins, block) {
            draft.put(block, site);
        }
    }
    Ok(draft)
}

/// Adds a site if no given block has it.
fn push_left(left: &mut Vec<Site>, given: &Draft, site: Site) -> Result<(), AllocError>
    ensures { OnOk result
        (left.new.items ≡ left.old.items ++ sites_left given.now.sites (site ∷ [])) }
{
    if given.at(site).is_none() {
        left.push(site)?;
    }
    Ok(())
}

/// Adds those sites of row `y` that no given block has.
fn push_row(left: &mut Vec<Site>, given: &Draft, nx: u16, y: u16) -> Result<(), AllocError>
    requires { nx ≤ 1000 }
    ensures { OnOk result
        (left.new.items ≡
        left.old.items ++
        sites_left given.now.sites (map (λ x. site_at x y 0) (range_with_len 1 nx))) }
{
    for x in 1..nx + 1 {
        push_left(left, given, Site { x, y, sub: 0 })?;
    }
    Ok(())
}

/// The logic sites that no given block has, row by row.
fn logic_left(alloc: Global, grid: &Grid, given: &Draft) -> Result<Vec<Site>, AllocError>
    ensures sites { IfOk result (λ v. v.items ≡ sites_left given.now.sites (logic_sites grid.now)) }
    ensures few { IfOk result (λ v. length v.items < 2 ^ 32) }
{
    let nx = grid.nx();
    let ny = grid.ny();
    let mut left = Vec::new(alloc);
    for y in 1..ny + 1 {
        push_row(&mut left, given, nx, y)?;
    }
    Ok(left)
}

/// Adds those pad sites at position `at` that no given block has.
fn push_position(
    left: &mut Vec<Site>,
    given: &Draft,
    io_rat: u16,
    at: (u16, u16),
) -> Result<(), AllocError>
    ensures { OnOk result
        (left.new.items ≡
        left.old.items ++
        sites_left given.now.sites
        (map (λ sub. site_at at.0 at.1 sub) (range_with_len 0 io_rat))) }
{
    for sub in 0..io_rat {
        let site = Site {
            x: at.0,
            y: at.1,
            sub,
        };
        push_left(left, given, site)?;
    }
    Ok(())
}

/// The pad sites that no given block has, by position around the array.
fn pads_left(alloc: Global, grid: &Grid, given: &Draft) -> Result<Vec<Site>, AllocError>
    ensures sites { IfOk result (λ v. v.items ≡ sites_left given.now.sites (pad_sites grid.now)) }
    ensures few { IfOk result (λ v. length v.items < 2 ^ 32) }
{
    let positions = 2 * (usize::from(grid.nx()) + usize::from(grid.ny()));
    let io_rat = grid.io_rat();
    let mut left = Vec::new(alloc);
    for place in 0..positions {
        if let Some(at) = grid.pad_at(place) {
            push_position(&mut left, given, io_rat, at)?;
        }
    }
    Ok(left)
}

/// Draws an entry of `left` by `word`, and removes it; the last entry fills the gap.
fn draw(word: u32, left: &mut Vec<Site>) -> Site
    requires some { 0 < length left.old.items }
    requires few { length left.old.items < 2 ^ 32 }
    ensures site { result ≡ site_of_block left.old.items (entry_of word left.old.items) }
    ensures left { left.new.items ≡ without left.old.items (entry_of word left.old.items) }
{
    let entry = pick(word, left.len() as u32);
    left.swap_remove(entry as usize)
}

/// Draws a site for a block of kind `kind` from the list for that kind.
fn draw_for(kind: BlockKind, word: u32, logic: &mut Vec<Site>, pads: &mut Vec<Site>) -> Site
    requires logic { IsTrue (is_logic kind) → 0 < length logic.old.items }
    requires pads { IsTrue (is_pad kind) → 0 < length pads.old.items }
    requires few { (length logic.old.items < 2 ^ 32) × (length pads.old.items < 2 ^ 32) }
    ensures logic { IsTrue (is_logic kind) →
        (result ≡ site_of_block logic.old.items (entry_of word logic.old.items)) ×
        (logic.new.items ≡ without logic.old.items (entry_of word logic.old.items)) ×
        (pads.new.items ≡ pads.old.items) }
    ensures pads { IsTrue (is_pad kind) →
        (result ≡ site_of_block pads.old.items (entry_of word pads.old.items)) ×
        (pads.new.items ≡ without pads.old.items (entry_of word pads.old.items)) ×
        (logic.new.items ≡ logic.old.items) }
{
    match kind {
        BlockKind::Logic => draw(word, logic),
        BlockKind::InputPad | BlockKind::OutputPad => draw(word, pads),
    }
}

/// How many blocks draw a site. Blocks that are not given do.
#[tactic(auto, using(crate::proofs::Drawing::draws_none_left))]
fn count_of_draws(design: &Design, given: &Draft) -> usize
    requires { length given.now.sites ≡ length design.now.kinds }
    ensures count { result ≡ drawing given.now.sites design.now.kinds }
    ensures few { result ≤ 65535 }
{
    let mut count = 0;
    'blocks: for number in 0..design.blocks() {
        match given.site_of(BlockId(number as u32)) {
            Some(_) => {}
            None => count += 1,
        }
    }
    count
}

/// The start words of the blocks that draw a site.
fn words_drawn<W: Words>(
    alloc: Global,
    design: &Design,
    given: &Draft,
    words: &W,
) -> Result<Vec<u32>, AllocError>
    requires { length given.now.sites ≡ length design.now.kinds }
    ensures many { IfOk result (λ v. length v.items ≡ drawing given.now.sites design.now.kinds) }
    ensures words { IfOk result (λ v.
        (i : ℕ) → i < length v.items → slice_index_or v.items i 0 ≡ W.starts words.now i) }
{
    let mut drawn = vec![in alloc; 0u32; count_of_draws(design, given)]?;
    words.fill_starts(0, &mut drawn);
    Ok(drawn)
}

/// Word number `place` of the list.
fn drawn_word(words: &[u32], place: u32) -> u32
    requires { place < length words.now }
    ensures { result ≡ slice_index_or words.now place 0 }
{
    words[place as usize]
}

/// The sites of all blocks. Given blocks have theirs; the others draw from `logic` and `pads`.
fn deal<W: Words>(
    alloc: Global,
    design: &Design,
    given: &Draft,
    words: &W,
    logic: Vec<Site>,
    pads: Vec<Site>,
) -> Result<Vec<Site>, AllocError>
    requires all { length given.now.sites ≡ length design.now.kinds }
    requires logic { waiting is_logic given.now.sites design.now.kinds ≤ length logic.items }
    requires pads { waiting is_pad given.now.sites design.now.kinds ≤ length pads.items }
    requires few { (length logic.items < 2 ^ 32) × (length pads.items < 2 ^ 32) }
    ensures sites { IfOk result (λ v.
        v.items ≡ dealt (W.starts words.now) 0 logic.items pads.items given.now.sites
        design.now.kinds) }
    ensures words { OnOk result ((j : ℕ) → j < drawing given.now.sites design.now.kinds →
        W.starts words.now j < 2 ^ 32) }
{
    let mut logic_sites = logic;
    let mut pad_sites = pads;
    let drawn_words = words_drawn(alloc, design, given, words)?;
    let mut sites = Vec::new(alloc);
    let mut drawn = 0u32;
    for number in 0..design.blocks() {
        let block = BlockId(number as u32);
        match given.site_of(block) {
            Some(site) => sites.push(site)?,
            None => {
                let kind = design.kind(block);
                let word = drawn_word(&drawn_words, drawn);
                let site = draw_for(kind, word, &mut logic_sites, &mut pad_sites);
                sites.push(site)?;
                drawn += 1;
            }
        }
    }
    Ok(sites)
}
