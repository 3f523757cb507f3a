//! Reads the lines of a text one after the other, without a copy of its bytes. The readers of all input formats use it.

ghost use Rattle.std.specs.Prelude.{◌≡◌, ℕ, List, ◌+◌, ◌-◌, ◌++◌, ◌∷◌, [], ◌≤◌, ◌<◌, length, map, take, drop, slice_range, position, IfOk, OnOk, OnErr, IfSome, IfNone, if◌then◌else◌};
ghost use Rattle.std.specs.List.{before_first};
ghost use Rattle.fab_text.specs.Steps.{IsNextLine};
ghost use Rattle.fab_text.specs.Runs.{SeparatorsPassed, RunsAreWords};
ghost use Rattle.fab_text.specs.Numbering.{LineFeedsEndLines, TextsEndLines, LineFeedsAreCounted, FirstNumbersCount};
ghost use Rattle.fab_text.specs.LineWords.{LinesHaveWords};
ghost use Rattle.fab_text.specs.Shown.{shown};
ghost use Rattle.fab_text.specs.Lines.{is_separator, is_hash, is_line_feed, trimmed, content, is_continued, words_at, bytes_at, physical, without_backslash, joined, lines, lines_from};

use crate::spans::{Line, Span};
use memchr::memchr2;
use std::alloc::{AllocError, Global};
use std::marker::Model;

fn is_separator(byte: u8) -> bool
    ensures { result ≡ is_separator byte }
{
    byte == b' ' || byte == b'\t' || byte == b'\r'
}

#[tactic(auto, unfolding(crate::specs::Lines::trimmed))]
fn trim_end(line: &[u8]) -> &[u8]
    ensures { result.now ≡ trimmed line.now }
{
    let mut end = line.len();
    while end > 0 && is_separator(line[end - 1]) {
        end -= 1;
    }
    &line[..end]
}

#[tactic(auto, unfolding(crate::specs::Lines::is_continued))]
fn is_continued(line: &[u8]) -> bool
    ensures { result ≡ is_continued line.now }
{
    match line.last() {
        Some(byte) => *byte == b'\\',
        None => false,
    }
}

fn line_feed_place(rest: &[u8]) -> Option<usize>
    ensures { result ≡ position is_line_feed rest.now }
{
    rest.iter().position(|byte| *byte == b'\n')
}

/// The first physical line of `rest`, which is not empty, and how many bytes it takes with its line feed.
fn plain_line(rest: &[u8]) -> (&[u8], usize)
    requires { 0 < length rest.now }
    ensures line { result.0.now ≡ before_first is_line_feed rest.now }
    ensures taken { (0 < result.1) × (result.1 ≤ length rest.now) ×
        (length result.0.now ≤ result.1) }
    ensures rest { (at : ℕ) →
        physical at rest.now ≡
        record { start = at; bytes = result.0.now } ∷
        physical (at + result.1) (drop result.1 rest.now) }
{
    match line_feed_place(rest) {
        Some(i) => (&rest[..i], i + 1),
        None => (rest, rest.len()),
    }
}

/// The same as `plain_line`, and also the part of the line before its first `#`.
fn first_line(rest: &[u8]) -> (&[u8], usize, &[u8])
    requires { 0 < length rest.now }
    ensures line { result.0.now ≡ before_first is_line_feed rest.now }
    ensures taken { (0 < result.1) × (result.1 ≤ length rest.now) ×
        (length result.0.now ≤ result.1) }
    ensures rest { (at : ℕ) →
        physical at rest.now ≡
        record { start = at; bytes = result.0.now } ∷
        physical (at + result.1) (drop result.1 rest.now) }
    ensures before { result.2.now ≡ before_first is_hash result.0.now }
{
    let Some(i) = memchr2(b'\n', b'#', rest) else {
        return (rest, rest.len(), rest);
    };
    let before = &rest[..i];
    if rest[i] == b'\n' {
        return (before, i + 1, before);
    }
    let (line, taken) = plain_line(rest);
    (line, taken, before)
}

/// `before` is the part of a physical line before its first `#`. Returns whether the next line continues that line, and how many of its
/// first bytes hold its words.
fn kept_len(before: &[u8]) -> (bool, usize)
    ensures continued { (line : List ℕ) → before.now ≡ before_first is_hash line →
        result.0 ≡ is_continued (content line) }
    ensures within { (line : List ℕ) → before.now ≡ before_first is_hash line →
        result.1 ≤ length line }
    ensures kept { (line : List ℕ) → before.now ≡ before_first is_hash line →
        take result.1 line ≡ without_backslash (content line) }
{
    let kept = trim_end(before);
    if is_continued(kept) {
        (true, kept.len() - 1)
    } else {
        (false, kept.len())
    }
}

// Memory for at most this many words is reserved before the words are found.
const MOST_ROOM: usize = 64;

// The memory of a line is used again for the next one, unless it has room for more words than this.
const MOST_KEPT: usize = 256;

/// The words found so far, each as bytes and as a place in the text.
#[derive(Drop)]
struct Gathered<'a> {
    text: &'a [u8],
    words: Vec<&'a [u8]>,
    spans: Vec<Span>,
    ghost matched: { map (λ w. w.now) words.items ≡ map (bytes_at text.now) spans.items },
}

impl<'a> Gathered<'a> {
    fn new(alloc: Global, text: &'a [u8]) -> Self
        ensures { (result.text.now ≡ text.now) × (result.spans.items ≡ []) }
    {
        Gathered {
            text,
            words: Vec::new(alloc),
            spans: Vec::new(alloc),
        }
    }

    /// No words yet. Uses the memory of `line`, which is no longer needed, unless it has room for more than `MOST_KEPT` words.
    fn in_room_of(alloc: Global, text: &'a [u8], line: Option<Line<'a>>) -> Self
        ensures { (result.text.now ≡ text.now) × (result.spans.items ≡ []) }
    {
        let Some(line) = line else {
            return Gathered::new(alloc, text);
        };
        if line.words.capacity() > MOST_KEPT || line.spans.capacity() > MOST_KEPT {
            return Gathered::new(alloc, text);
        }
        let Line {
            number: _,
            mut words,
            mut spans,
        } = line;
        words.clear();
        spans.clear();
        Gathered { text, words, spans }
    }

    fn push(&mut self, start: usize, stop: usize) -> Result<(), AllocError>
        requires order { start ≤ stop }
        requires within { stop ≤ length self.old.text.now }
        ensures text { self.new.text.now ≡ self.old.text.now }
        ensures spans { OnOk result
            (self.new.spans.items ≡
            self.old.spans.items ++ record { start = start; stop = stop } ∷ []) }
    {
        self.words.push(&self.text[start..stop])?;
        if let Err(failed) = self.spans.push(Span { start, stop }) {
            self.words.pop();
            return Err(AllocError::from(failed));
        }
        Ok(())
    }

    /// Reserves memory at once for the words of `bytes` bytes. The guess is a word for each three bytes, and at most 64 words. If there are
    /// more words, the memory grows with them.
    fn reserve(&mut self, bytes: usize) -> Result<(), AllocError>
        ensures text { self.new.text.now ≡ self.old.text.now }
        ensures spans { self.new.spans.items ≡ self.old.spans.items }
    {
        let room = (bytes / 3 + 1).min(MOST_ROOM);
        self.words.reserve(room)?;
        self.spans.reserve(room)
    }

    /// Adds the words of the bytes from place `from` up to but not including `to`.
    fn push_words(&mut self, from: usize, to: usize) -> Result<(), AllocError>
        requires order { from ≤ to }
        requires within { to ≤ length self.old.text.now }
        ensures text { self.new.text.now ≡ self.old.text.now }
        ensures spans { OnOk result
            (self.new.spans.items ≡
            self.old.spans.items ++ words_at from (slice_range self.old.text.now from to)) }
    {
        if from < to {
            self.reserve(to - from)?;
        }
        let text = self.text;
        let mut begun = None;
        for i in from..to {
            if is_separator(text[i]) {
                if let Some(start) = begun {
                    self.push(start, i)?;
                    begun = None;
                }
            } else if begun.is_none() {
                begun = Some(i);
            }
        }
        if let Some(start) = begun {
            self.push(start, to)?;
        }
        Ok(())
    }

    /// Adds the words of the physical line at place `at`. Returns whether the next line continues it, and where the next line begins.
    fn push_physical(&mut self, at: usize) -> Result<(bool, usize), AllocError>
        requires { at < length self.old.text.now }
        ensures text { self.new.text.now ≡ self.old.text.now }
        ensures next { IfOk result (λ r. (at < r.1) × (r.1 ≤ length self.old.text.now)) }
        ensures line { IfOk result (λ r.
            IsNextLine self.old.text.now at r.0 r.1 self.old.spans.items self.new.spans.items) }
    {
        let (_line, taken, before) = first_line(&self.text[at..]);
        let (continued, len) = kept_len(before);
        self.push_words(at, at + len)?;
        Ok((continued, at + taken))
    }
}

/// The whole line at place `at`, which is before the end: its words, where the next line begins, and the number of that line. The words are
/// put into `empty`.
fn read_joined<'a>(
    empty: Gathered<'a>,
    text: &'a [u8],
    at: usize,
    number: u64,
) -> Result<(Gathered<'a>, usize, u64), AllocError>
    requires of { empty.text.now ≡ text.now }
    requires empty { empty.spans.items ≡ [] }
    requires within { at < length text.now }
    requires small { number ≤ at + 1 }
    ensures text { IfOk result (λ r. r.0.text.now ≡ text.now) }
    ensures next { IfOk result (λ r. (at < r.1) × (r.1 ≤ length text.now) × (r.2 ≤ r.1 + 1)) }
    ensures line { IfOk result (λ r. joined number (physical at (drop at text.now))
        ≡ record { number = number; spans = r.0.spans.items } ∷ joined r.2 (physical r.1 (drop r.1 text.now))) }
{
    let mut found = empty;
    let mut place = at;
    let mut next_number = number;
    loop {
        let (continued, next) = found.push_physical(place)?;
        place = next;
        next_number += 1;
        if !continued || place == text.len() {
            return Ok((found, place, next_number));
        }
    }
}

/// The first line with words from place `at` on, where the rest begins, and the number of the line there. The words are put into `empty`.
fn next_line<'a>(
    empty: Gathered<'a>,
    text: &'a [u8],
    at: usize,
    at_number: u64,
) -> Result<(Option<Line<'a>>, usize, u64), AllocError>
    requires of { empty.text.now ≡ text.now }
    requires empty { empty.spans.items ≡ [] }
    requires within { at ≤ length text.now }
    requires small { at_number ≤ at + 1 }
    ensures next { IfOk result (λ r. (r.1 ≤ length text.now) × (r.2 ≤ r.1 + 1)) }
    ensures some { IfOk result (λ r.
        IfSome r.0 (λ line.
        lines_from text.now at at_number ≡ shown line ∷ lines_from text.now r.1 r.2)) }
    ensures none { IfOk result (λ r.
        IfNone r.0 ((lines_from text.now at at_number ≡ []) × (lines_from text.now r.1 r.2 ≡ []))) }
{
    let mut nothing = empty;
    let mut place = at;
    let mut number = at_number;
    while place < text.len() {
        let (found, after, next_number) = read_joined(nothing, text, place, number)?;
        if !found.spans.is_empty() {
            let Gathered { words, spans, .. } = found;
            let line = Line {
                number,
                words,
                spans,
            };
            return Ok((Some(line), after, next_number));
        }
        nothing = found;
        place = after;
        number = next_number;
    }
    Ok((None, place, number))
}

/// The lines of a text that are still to be read.
///
/// A physical line ends at a line feed or at the end of the text, and is cut at its first `#`. Separators
/// (space, tab, carriage return) at its end are then dropped. If its last byte is then a backslash, that is dropped
/// too, and the next physical line continues this one. A line break always separates words. Lines without words
/// are skipped.
#[derive(Drop)]
pub struct Lines<'a> {
    alloc: Global,
    text: &'a [u8],
    place: usize,
    next_number: u64,
}

impl<'a> Model for Lines<'a> {
    ghost use Rattle.std.specs.Prelude.{List, ◌+◌, ◌≤◌, length};
    ghost use Rattle.fab_text.specs.Lines.{TextLine, lines_from};

    ghost Value = { List TextLine };

    ghost view = { λ a. lines_from a.text.now a.place a.next_number };

    ghost invariant = { λ a. (a.place ≤ length a.text.now) × (a.next_number ≤ a.place + 1) };
}

impl<'a> Lines<'a> {
    /// All lines of a text.
    pub fn new(alloc: Global, text: &'a [u8]) -> Self
        ensures { result ≡ lines text.now }
    {
        Lines {
            alloc,
            text,
            place: 0,
            next_number: 1,
        }
    }

    /// Takes the next line, or returns `None` after the last one. If memory runs out, nothing changes.
    pub fn next(&mut self) -> Result<Option<Line<'a>>, AllocError>
        ensures some { IfOk result (λ r. IfSome r (λ line. self.old ≡ shown line ∷ self.new)) }
        ensures none { IfOk result (λ r. IfNone r ((self.old ≡ []) × (self.new ≡ []))) }
        ensures err { OnErr result (self.new ≡ self.old) }
    {
        self.next_in_room_of(None)
    }

    /// Takes the next line as [`Lines::next`] does. It uses the memory of `done`, a line that is no longer needed, so that few lines
    /// allocate.
    pub fn next_in_room_of(
        &mut self,
        done: Option<Line<'a>>,
    ) -> Result<Option<Line<'a>>, AllocError>
        ensures some { IfOk result (λ r. IfSome r (λ line. self.old ≡ shown line ∷ self.new)) }
        ensures none { IfOk result (λ r. IfNone r ((self.old ≡ []) × (self.new ≡ []))) }
        ensures err { OnErr result (self.new ≡ self.old) }
    {
        let empty = Gathered::in_room_of(self.alloc, self.text, done);
        let (line, place, number) = next_line(empty, self.text, self.place, self.next_number)?;
        self.place = place;
        self.next_number = number;
        Ok(line)
    }
}

/// The law that the words of a line are the longest runs without separators, for every text.
pub fn words_are_greatest_runs()
    ensures separators { SeparatorsPassed }
    ensures runs { RunsAreWords }
{}

/// The law that each word of each line of a text has at least one byte, and no separator, line feed or `#`.
pub fn lines_have_words()
    ensures { LinesHaveWords }
{}

/// The law that a physical line ends at a line feed or at the end of the text, and nowhere else.
pub fn line_feeds_end_lines()
    ensures feed { LineFeedsEndLines }
    ensures end { TextsEndLines }
{}

/// The law that a line has the number of its first physical line: one more than the number of line feeds
/// before it in the text.
pub fn lines_are_numbered_by_line_feeds()
    ensures counted { LineFeedsAreCounted }
    ensures first { FirstNumbersCount }
{}
