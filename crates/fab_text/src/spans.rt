//! What a reader returns: a line, and the place in the text of each of its words.

ghost use Rattle.std.specs.Prelude.{◌≡◌, length};

/// The place of a word in its text: the bytes from `start` up to but not including `stop`.
#[derive(Clone, Copy, Debug, PartialEq, Eq)]
pub struct Span {
    pub start: usize,
    pub stop: usize,
}

/// A line of a text with at least one word, together with the lines that a backslash joined to it.
#[derive(Drop)]
pub struct Line<'a> {
    /// The number of its first physical line, from 1.
    pub number: u64,
    /// Its words, in order.
    pub words: Vec<&'a [u8]>,
    /// The place in the text of each word.
    pub spans: Vec<Span>,
    ghost placed: { length words.items ≡ length spans.items },
}
