//! What the words of `place` and of `resume` ask for, and their first fault.

ghost use Rattle.std.specs.Prelude.{◌≡◌, ◌≢◌, Some, None, Ok, Err, IfOk, IfErr, MatchResult, codes};
ghost use Rattle.fab_text.specs.Decimal.{decimal_of};
ghost use Rattle.fab_text.specs.declared.numbers.NumFault.{NumFault as NumFaultOf};
ghost use Rattle.vplace.specs.declared.requests.Number.TheVariants.{AlphaT};
ghost use Rattle.vplace.specs.declared.requests.WordFault.TheVariants.{BadNumber, SizeInPart, StopInPart};
ghost use Rattle.vplace.specs.Asked.{AreAsked, IsCoolingAsked, IsWordFault, size_asked, stop_asked};

use fab_run::{Moves, Options};
use fab_sched::Cooling;
use fab_text::{NumFault, decimal};

/// What the words of `place` give. Temperatures and the factor are texts that are not read yet.
#[derive(Drop)]
pub struct PlaceWords {
    pub arch: Vec<u8>,
    pub net: Vec<u8>,
    pub out: Vec<u8>,
    pub pads: Option<Vec<u8>>,
    pub nx: Option<u16>,
    pub ny: Option<u16>,
    pub seed: u64,
    pub init_t: Vec<u8>,
    pub exit_t: Vec<u8>,
    pub alpha_t: Vec<u8>,
    pub inner: u64,
    pub moves: Option<u64>,
    pub batch: u64,
    pub workers: u64,
    pub stop: Option<u64>,
    pub save: Option<Vec<u8>>,
}

/// What the words of `resume` give.
#[derive(Drop)]
pub struct ResumeWords {
    pub arch: Vec<u8>,
    pub net: Vec<u8>,
    pub point: Vec<u8>,
    pub out: Vec<u8>,
    pub batch: u64,
    pub workers: u64,
    pub stop: Option<u64>,
    pub save: Option<Vec<u8>>,
}

/// An option whose value is a decimal number.
#[derive(Clone, Copy, Debug, PartialEq, Eq)]
pub enum Number {
    InitT,
    ExitT,
    AlphaT,
}

/// What is wrong with the words.
#[derive(Clone, Copy, Debug, PartialEq, Eq)]
pub enum WordFault {
    /// The columns are given without the rows, or the rows without the columns.
    SizeInPart,
    /// The stop is given without the save name, or the save name without the stop.
    StopInPart,
    /// The value of an option is not a number, has too many decimal places, or is too large.
    BadNumber(Number, NumFault),
}

/// The size of the array, if both its columns and its rows are given; `None` if neither is. One without the other is refused.
fn size_of(words: &PlaceWords) -> Result<Option<(u16, u16)>, WordFault>
    ensures { MatchResult result (λ size.
        size_asked words.now.nx words.now.ny ≡ Some size)
        (λ fault. (fault ≡ SizeInPart) × (size_asked words.now.nx words.now.ny ≡ None)) }
{
    match (words.nx, words.ny) {
        (Some(nx), Some(ny)) => Ok(Some((nx, ny))),
        (None, None) => Ok(None),
        _ => Err(WordFault::SizeInPart),
    }
}

/// The stop, if it is given with a save name; `None` if neither is given. One without the other is refused.
pub fn stop_of(stop: Option<u64>, save: &Option<Vec<u8>>) -> Result<Option<u64>, WordFault>
    ensures { MatchResult result (λ asked. stop_asked stop save.now ≡ Some asked) (λ fault.
        (fault ≡ StopInPart) × (stop_asked stop save.now ≡ None)) }
{
    match (stop, save) {
        (Some(_), Some(_)) | (None, None) => Ok(stop),
        _ => Err(WordFault::StopInPart),
    }
}

/// A number with at most `places` decimal places, in its smallest unit.
fn scaled(option: Number, text: &[u8], places: u32) -> Result<u64, WordFault>
    ensures { MatchResult result (λ n. decimal_of text.now places ≡ Ok n) (λ fault.
        (e : NumFaultOf) × (fault ≡ BadNumber option e) × (decimal_of text.now places ≡ Err e)) }
{
    decimal(text, places).map_err(|fault| WordFault::BadNumber(option, fault))
}

fn cooling_of(text: &[u8]) -> Result<Cooling, WordFault>
    ensures value { IfOk result (IsCoolingAsked text.now) }
    ensures fault { IfErr result (λ fault.
        (e : NumFaultOf) × (fault ≡ BadNumber AlphaT e) × (text.now ≢ codes "adaptive") ×
        (decimal_of text.now 3 ≡ Err e)) }
{
    if text == b"adaptive".as_slice() {
        return Ok(Cooling::Adaptive);
    }
    Ok(Cooling::Factor(scaled(Number::AlphaT, text, 3)?))
}

/// The options of a run, or the first fault of the words, in this order: the size, the stop, the first temperature, the last one, the
/// factor.
pub fn options_of(words: &PlaceWords) -> Result<Options, WordFault>
    ensures value { IfOk result (AreAsked words.now) }
    ensures fault { IfErr result (IsWordFault words.now) }
{
    let size = size_of(words)?;
    let stop = stop_of(words.stop, &words.save)?;
    let init_t = scaled(Number::InitT, words.init_t.as_slice(), 4)?;
    let exit_t = scaled(Number::ExitT, words.exit_t.as_slice(), 4)?;
    let cooling = cooling_of(words.alpha_t.as_slice())?;
    let moves = match words.moves {
        Some(moves) => Moves::Given(moves),
        None => Moves::Inner(words.inner),
    };
    Ok(Options {
        seed: words.seed,
        size,
        init_t,
        exit_t,
        cooling,
        moves,
        batch: words.batch,
        workers: words.workers,
        stop,
    })
}
