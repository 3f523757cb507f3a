//! The nets of each block by size, in four tables. The four places where a block's rows begin are stored together, so that one read fetches
//! all four.

ghost use Rattle.std.specs.Prelude.{◌≡◌, ℕ, ◌<◌, ◌≤◌, ◌+◌, [], length, IfOk, slice_index, slice_index_or};
ghost use Rattle.fab_net.specs.Rows.{cut_at};
ghost use Rattle.fab_cost.specs.SizedRows.{column};

use crate::records::Record;
use fab_net::rows::Rows;
use std::alloc::{AllocError, Global};
use std::marker::Model;

/// The rows of each block in four tables.
pub struct SizedRows {
    /// For each block, where its rows begin in the four tables, and at the end where the last rows end.
    starts: Vec<[u32; 4]>,
    small: Vec<Record<3>>,
    middle: Vec<Record<7>>,
    wide: Vec<Record<15>>,
    large: Vec<u32>,
}

impl Model for SizedRows {
    ghost use Rattle.fab_net.specs.Rows.{cuts};
    ghost use Rattle.fab_cost.specs.SizedRows.{FitTogether, SizedRowsOf, column};

    ghost Value = { SizedRowsOf };

    ghost view = { λ a.
        record {
          small = cuts (column 0 a.starts.items) a.small.items;
          middle = cuts (column 1 a.starts.items) a.middle.items;
          wide = cuts (column 2 a.starts.items) a.wide.items;
          large = cuts (column 3 a.starts.items) a.large.items;
        } };

    ghost invariant = { λ a.
        FitTogether a.starts.items a.small.items a.middle.items a.wide.items a.large.items };
}

impl Drop for SizedRows {
    // A `drop` by hand is proved once; a derived `drop` is proved again wherever a value goes out of scope.
    fn drop(self) {
        let SizedRows {
            starts: _,
            small: _,
            middle: _,
            wide: _,
            large: _,
        } = self;
    }
}

/// Where row `r` of one kind of items begins.
#[inline(always)]
#[tactic(auto, using(crate::proofs::Columns::column_at))]
fn start_of(starts: &[[u32; 4]], kind: usize, r: usize) -> usize
    requires kind { kind < 4 }
    requires within { r < length starts.now }
    ensures { result ≡ slice_index (column kind starts.now) r }
{
    starts[r][kind] as usize
}

/// Row `r` of one kind of items.
#[inline(always)]
fn cut<'a, T>(starts: &[[u32; 4]], items: &'a [T], kind: usize, r: usize) -> &'a [T]
    requires kind { kind < 4 }
    requires next { r + 1 < length starts.now }
    requires order { slice_index (column kind starts.now) r ≤
        slice_index (column kind starts.now) (r + 1) }
    requires within { slice_index (column kind starts.now) (r + 1) ≤ length items.now }
    ensures { result.now ≡ cut_at (column kind starts.now) items.now r }
{
    let start = start_of(starts, kind, r);
    let stop = start_of(starts, kind, r + 1);
    &items[start..stop]
}

/// Puts four lists of starts, all of the same length, into one table.
fn zipped(
    alloc: Global,
    small: &[u32],
    middle: &[u32],
    wide: &[u32],
    large: &[u32],
) -> Result<Vec<[u32; 4]>, AllocError>
    requires middle { length middle.now ≡ length small.now }
    requires wide { length wide.now ≡ length small.now }
    requires large { length large.now ≡ length small.now }
    ensures small { IfOk result (λ v. column 0 v.items ≡ small.now) }
    ensures middle { IfOk result (λ v. column 1 v.items ≡ middle.now) }
    ensures wide { IfOk result (λ v. column 2 v.items ≡ wide.now) }
    ensures large { IfOk result (λ v. column 3 v.items ≡ large.now) }
{
    let mut starts = Vec::new(alloc);
    'rows: for r in 0..small.len() {
        starts.push([small[r], middle[r], wide[r], large[r]])?;
    }
    Ok(starts)
}

/// Puts four tables together, which have the same number of rows.
pub(crate) fn together(
    alloc: Global,
    small: Rows<Record<3>>,
    middle: Rows<Record<7>>,
    wide: Rows<Record<15>>,
    large: Rows<u32>,
) -> Result<SizedRows, AllocError>
    requires middle { length middle ≡ length small }
    requires wide { length wide ≡ length small }
    requires large { length large ≡ length small }
    ensures { IfOk result (λ a.
        a ≡ record { small = small; middle = middle; wide = wide; large = large }) }
{
    let (small_starts, small_items) = small.into_parts();
    let (middle_starts, middle_items) = middle.into_parts();
    let (wide_starts, wide_items) = wide.into_parts();
    let (large_starts, large_items) = large.into_parts();
    let starts = zipped(
        alloc,
        &small_starts,
        &middle_starts,
        &wide_starts,
        &large_starts,
    )?;
    Ok(SizedRows {
        starts,
        small: small_items,
        middle: middle_items,
        wide: wide_items,
        large: large_items,
    })
}

/// Reads record number `place`, if there is one.
fn read_record<const W: usize>(records: &[Record<W>], place: u32) -> u64 {
    match records.get(place as usize) {
        Some(record) => u64::from(record.factor),
        None => 0,
    }
}

impl SizedRows {
    /// Reads where the rows of block `r` begin, and the records there: its first ones, or those of a later block. The result has no
    /// meaning.
    pub(crate) fn read_early(&self, r: usize) -> u64 {
        match self.starts.get(r) {
            Some(starts) => {
                read_record(&self.small, starts[0])
                    ^ read_record(&self.middle, starts[1])
                    ^ read_record(&self.wide, starts[2])
            }
            None => 0,
        }
    }

    /// The records of a block's nets with 2 to 4 terminals.
    #[inline(always)]
    pub(crate) fn small_row(&self, r: usize) -> &[Record<3>]
        requires { r < length self.now.small }
        ensures { result.now ≡ slice_index_or self.now.small r [] }
    {
        cut(&self.starts, &self.small, 0, r)
    }

    /// The records of a block's nets with 5 to 8 terminals.
    #[inline(always)]
    pub(crate) fn middle_row(&self, r: usize) -> &[Record<7>]
        requires { r < length self.now.middle }
        ensures { result.now ≡ slice_index_or self.now.middle r [] }
    {
        cut(&self.starts, &self.middle, 1, r)
    }

    /// The records of a block's nets with 9 to 16 terminals.
    #[inline(always)]
    pub(crate) fn wide_row(&self, r: usize) -> &[Record<15>]
        requires { r < length self.now.wide }
        ensures { result.now ≡ slice_index_or self.now.wide r [] }
    {
        cut(&self.starts, &self.wide, 2, r)
    }

    /// The places among a block's nets of those with more than 16 terminals.
    #[inline(always)]
    pub(crate) fn large_row(&self, r: usize) -> &[u32]
        requires { r < length self.now.large }
        ensures { result.now ≡ slice_index_or self.now.large r [] }
    {
        cut(&self.starts, &self.large, 3, r)
    }
}
