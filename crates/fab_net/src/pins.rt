//! Pins, with nets numbered by first appearance.

ghost use Rattle.std.specs.Prelude.{◌≡◌, ◌++◌, ◌∷◌, ◌^◌, ◌<◌, ◌≤◌, [], List, nat_le, length, map, filter, count_by, slice_index_or, IfOk, OnOk, OnErr};
ghost use Rattle.std.specs.List.{sum_by};
ghost use Rattle.fab_net.specs.ByNumber.{net_entry, drives_its, driver_entry, span_at};
ghost use Rattle.fab_net.specs.Names.{AllDistinct};
ghost use Rattle.fab_net.specs.Faults.{are_few, first_span};
ghost use Rattle.fab_net.specs.Said.{connected};
ghost use Rattle.fab_net.specs.Text.{PinOf, net_of_pin, net_names, terminals_of, is_driver, is_global_in};

use crate::names::{NetNames, connected_count};
use crate::netlist_types::{BlockId, Pin, Terminal};
use crate::rows::{Rows, gather, row_counts};
use fab_text::Span;
use std::alloc::{AllocError, Global};
use std::marker::Model;

/// An entry for each pin: its net, which is the row, and its terminal.
fn net_entries(alloc: Global, pins: &[Pin]) -> Result<Vec<(u32, Terminal)>, AllocError>
    ensures { IfOk result (λ v. v.items ≡ map net_entry pins.now) }
{
    pins.iter()
        .map(|p| {
            let terminal = Terminal {
                block: BlockId(p.block),
                pin: p.pin,
            };
            (p.net, terminal)
        })
        .collect(alloc)
}

/// An entry for each pin that drives its net: the net, which is the row, and true.
fn driver_entries(alloc: Global, pins: &[Pin]) -> Result<Vec<(u32, bool)>, AllocError>
    ensures { IfOk result (λ v. v.items ≡ map driver_entry (filter drives_its pins.now)) }
{
    pins.iter()
        .filter(|p| p.drives)
        .map(|p| (p.net, p.drives))
        .collect(alloc)
}

/// The place of a net's first pin.
fn span_at(net: u32, pins: &[Pin]) -> Span
    ensures { result ≡ span_at net pins.now }
{
    for p in pins {
        if p.net == net {
            return p.span;
        }
    }
    Span { start: 0, stop: 0 }
}

/// For each name of `names`, whether it is among `globals`.
fn marks_of(alloc: Global, names: &NetNames, globals: &[&[u8]]) -> Result<Vec<bool>, AllocError>
    requires { AllDistinct names.now }
    ensures { IfOk result (λ v.
        v.items ≡ map (is_global_in (map (λ w. w.now) globals.now)) names.now) }
{
    let mut marks = vec![in alloc; false; names.len()]?;
    for name in globals {
        if let Some(n) = names.number_of(name) {
            marks[n] = true;
        }
    }
    Ok(marks)
}

fn are_few_terminals(count: usize) -> bool
    ensures { result ≡ nat_le count 1048576 }
{
    count <= 1048576
}

fn are_few_nets(count: usize) -> bool
    ensures { result ≡ nat_le count 65535 }
{
    count <= 65535
}

/// The pins that are on nets. The nets are numbered by first appearance.
pub struct Pins<'a> {
    names: NetNames<'a>,
    pins: Vec<Pin>,
}

impl<'a> Model for Pins<'a> {
    ghost use Rattle.std.specs.Prelude.{List, ◌≡◌, ◌<◌, length, map};
    ghost use Rattle.std.specs.List.{All};
    ghost use Rattle.fab_net.specs.ByNumber.{pin_of};
    ghost use Rattle.fab_net.specs.Text.{PinOf, net_names};

    ghost Value = { List PinOf };

    ghost view = { λ a. map (pin_of a.names) a.pins.items };

    ghost invariant = { λ a.
        (a.names ≡ net_names (map (pin_of a.names) a.pins.items)) ×
        All (λ p. p.net < length a.names) a.pins.items };
}

impl<'a> Drop for Pins<'a> {
    fn drop(self) {
        let Pins { names: _, pins: _ } = self;
    }
}

impl<'a> Pins<'a> {
    /// No pins.
    pub fn new(alloc: Global) -> Self
        ensures { result ≡ [] }
    {
        Pins {
            names: NetNames::new(alloc),
            pins: Vec::new(alloc),
        }
    }

    /// How many pins there are.
    pub fn len(&self) -> usize
        ensures { result ≡ length self.now }
    {
        self.pins.len()
    }

    /// How many nets the pins name.
    pub fn net_count(&self) -> usize
        ensures { result ≡ length (net_names self.now) }
    {
        self.names.len()
    }

    /// Whether the limits allow the pins of one more pinlist with the entries `words`, at most 1,024: 1,048,576 terminals and 65,535 nets
    /// in all. New names are counted only if there could be too many.
    pub(crate) fn have_room(&self, words: &[&[u8]]) -> bool
        requires words { length words.now ≤ 1024 }
        requires few { length self.now ≤ 1048576 }
        ensures { (more : List PinOf) →
            map net_of_pin more ≡ connected (map (λ w. w.now) words.now) →
            result ≡ are_few (self.now ++ more) }
    {
        let added = connected_count(words);
        if !are_few_terminals(self.len() + added) {
            return false;
        }
        let nets = self.net_count();
        are_few_nets(nets + added) || are_few_nets(nets + self.names.count_new(words))
    }

    /// Adds a pin at the end. Its memory is reserved first, so if memory runs out, nothing changes.
    pub(crate) fn add(
        &mut self,
        name: &'a [u8],
        block: u32,
        pin: u16,
        drives: bool,
        span: Span,
    ) -> Result<(), AllocError>
        requires { length (net_names self.old) < 2 ^ 32 }
        ensures pins { OnOk result
            (self.new ≡ self.old ++ record {
              block = block;
              pin = pin;
              name = name.now;
              span = span;
              drives = drives;
            } ∷ []) }
        ensures err { OnErr result (self.new ≡ self.old) }
    {
        self.pins.reserve(1)?;
        let number = self.names.intern(name)?;
        let net = number as u32;
        self.pins.push_reserved(Pin {
            block,
            pin,
            net,
            drives,
            span,
        });
        Ok(())
    }

    /// The terminals of each net, by net number.
    pub fn terminals(&self, alloc: Global) -> Result<Rows<Terminal>, AllocError>
        requires { length self.now < 2 ^ 32 }
        ensures found { IfOk result (λ rows.
            rows ≡ map (terminals_of self.now) (net_names self.now)) }
        ensures few { IfOk result (λ rows. sum_by length rows ≤ length self.now) }
    {
        let entries = net_entries(alloc, &self.pins)?;
        let blank = Terminal {
            block: BlockId(0),
            pin: 0,
        };
        gather(alloc, self.names.len(), &entries, blank)
    }

    /// The number of drivers of each net, by net number.
    pub fn driver_counts(&self, alloc: Global) -> Result<Vec<u32>, AllocError>
        requires { length self.now < 2 ^ 32 }
        ensures { IfOk result (λ v.
            v.items ≡ map (λ name. count_by (is_driver name) self.now) (net_names self.now)) }
    {
        let entries = driver_entries(alloc, &self.pins)?;
        row_counts(alloc, self.names.len(), &entries)
    }

    /// The place in the text where a net is first named.
    pub fn first_span(&self, net: u32) -> Span
        requires { net < length (net_names self.now) }
        ensures { result ≡ first_span self.now (slice_index_or (net_names self.now) net []) }
    {
        span_at(net, &self.pins)
    }

    /// For each net, whether its name is among `globals`.
    pub fn marks(&self, alloc: Global, globals: &[&[u8]]) -> Result<Vec<bool>, AllocError>
        ensures { IfOk result (λ v.
            v.items ≡ map (is_global_in (map (λ w. w.now) globals.now)) (net_names self.now)) }
    {
        marks_of(alloc, &self.names, globals)
    }
}
