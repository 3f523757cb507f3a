//! The words of a line of a placement text, a location text or a checkpoint text.

ghost use Rattle.std.specs.Prelude.{◌≡◌, ◌≤◌, IfSome};
ghost use Rattle.fab_text.specs.Shown.{shown};
ghost use Rattle.fab_file.specs.Place.{word_at, is_word, small, small_number, site_from, site_in};

use fab_arch::Site;
use fab_text::{Line, decimal};

/// Word `i` of a line, or an empty one if there is none.
pub fn word_at<'a>(line: &Line<'a>, i: usize) -> &'a [u8]
    ensures { result.now ≡ word_at (shown line.now) i }
{
    match line.words.get(i) {
        Some(word) => *word,
        None => &[],
    }
}

/// Whether word `i` of a line is `name`.
pub fn is_word(line: &Line, i: usize, name: &[u8]) -> bool
    ensures { result ≡ is_word (shown line.now) i name.now }
{
    word_at(line, i) == name
}

/// The whole number that `word` writes, if it is at most 65,535.
pub(crate) fn small_number(word: &[u8]) -> Option<u16>
    ensures { result ≡ small_number word.now }
{
    match decimal(word, 0) {
        Ok(n) => { if n <= 65_535 { Some(n as u16) } else { None } }
        Err(_) => None,
    }
}

/// The site that a line `name x y sub` gives.
pub(crate) fn site_in(line: &Line) -> Option<Site>
    ensures { result ≡ site_in (shown line.now) }
{
    if line.words.len() != 4 {
        return None;
    }
    site_from(
        small_number(word_at(line, 1)),
        small_number(word_at(line, 2)),
        small_number(word_at(line, 3)),
    )
}

fn site_from(x: Option<u16>, y: Option<u16>, sub: Option<u16>) -> Option<Site>
    ensures { result ≡ site_from x y sub }
{
    let x = x?;
    let y = y?;
    let sub = sub?;
    Some(Site { x, y, sub })
}
