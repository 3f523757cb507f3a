//! The words of the command line: read as bytes, shown to the parser as text, and turned back into bytes.
//!
//! A word may be any bytes, but the parser takes only text. So a word that is not UTF-8 is shown as text in which each byte from 128 on is
//! replaced by a letter from the end of Unicode's private range. A word that is UTF-8 is shown as it is, unless it contains such a letter
//! itself.

ghost use Rattle.std.specs.Prelude.{ℕ, ◌≡◌, ◌<◌, ◌++◌, IfOk, List, OnOk, map};
ghost use Rattle.std.specs.List.{All, list_any};
ghost use Rattle.std.specs.Str.{chars, encode_utf8_all};
ghost use Rattle.std.specs.String.{string_bytes};
ghost use Rattle.vplace.specs.CommandLine.{bytes_of, is_stand_in, letter_of, shown, word_of};

use std::alloc::{AllocError, Global};
use std::env::FillError;
use std::rt::Env;
use std::str;

// The letter for byte b has the code FIRST_CODE + b.
const FIRST_CODE: u32 = 0x10_FF00;

// Whether a letter stands for a byte from 128 on.
fn is_stand_in(letter: char) -> bool
    ensures { result ≡ is_stand_in letter }
{
    u32::from(letter) >= FIRST_CODE + 128
}

fn has_stand_in(text: &str) -> bool
    ensures { result ≡ list_any is_stand_in (chars text.now) }
{
    text.chars().any(is_stand_in)
}

// The letter that shows a byte in a word that is not UTF-8.
fn letter_of(byte: u8) -> char
    ensures { result ≡ letter_of byte }
{
    if byte < 128 {
        return char::from(byte);
    }
    char::from_u32(FIRST_CODE + u32::from(byte)).unwrap_or(char::REPLACEMENT_CHARACTER)
}

// Each byte of a word as a letter.
fn letters(alloc: Global, word: &[u8]) -> Result<String, AllocError>
    ensures { IfOk result (λ text. string_bytes text ≡ encode_utf8_all (map letter_of word.now)) }
{
    let mut text = String::new(alloc);
    for byte in word {
        text.push(letter_of(*byte))?;
    }
    Ok(text)
}

/// A word as text, from which `as_bytes` makes the word again.
pub fn as_text(alloc: Global, word: &[u8]) -> Result<String, AllocError>
    ensures { IfOk result (λ text. string_bytes text ≡ shown word.now) }
{
    if let Ok(text) = str::from_utf8(word) {
        if !has_stand_in(text) {
            return String::from_str(alloc, text);
        }
    }
    letters(alloc, word)
}

// Adds the bytes of a letter: the one that it stands for, or its own.
fn push_bytes(bytes: &mut Vec<u8>, letter: char) -> Result<(), AllocError>
    ensures { OnOk result (bytes.new.items ≡ bytes.old.items ++ bytes_of letter) }
{
    if is_stand_in(letter) {
        return Ok(bytes.push((u32::from(letter) - FIRST_CODE) as u8)?);
    }
    let mut room = [0u8; 4];
    bytes.extend_from_slice(letter.encode_utf8(&mut room).as_bytes())
}

/// The bytes of a text in which letters may stand for bytes.
pub fn as_bytes(alloc: Global, text: &str) -> Result<Vec<u8>, AllocError>
    ensures { IfOk result (λ bytes. bytes.items ≡ word_of text.now) }
{
    let mut bytes = Vec::new(alloc);
    for letter in text.chars() {
        push_bytes(&mut bytes, letter)?;
    }
    Ok(bytes)
}

/// The law that the word comes back from the text that shows it, whatever its bytes are.
pub fn words_come_back()
    ensures { (word : List ℕ) → All (λ byte. byte < 256) word → word_of (shown word) ≡ word }
{}

// The word at a place. The buffer starts at 256 bytes and doubles until the word fits.
fn word_at<R: Env + AllocGlobal>(rt: &R, place: usize) -> Result<Option<Vec<u8>>, AllocError> {
    let mut room = 256usize;
    for _ in 0..usize::BITS {
        let mut word = vec![in rt.alloc(); 0u8; room]?;
        match rt.arg(place, word.as_mut_slice()) {
            Ok(length) => {
                word.truncate(length);
                return Ok(Some(word));
            }
            Err(FillError::NotPresent) => return Ok(None),
            Err(FillError::TooLong) => room = room.saturating_add(room),
        }
    }
    Err(AllocError)
}

/// The words that the program was started with, without its own name.
pub fn given_words<R: Env + AllocGlobal>(rt: &R) -> Result<Vec<Vec<u8>>, AllocError> {
    let mut words = Vec::new(rt.alloc());
    for place in 1..usize::MAX {
        match word_at(rt, place)? {
            Some(word) => words.push(word)?,
            None => break,
        }
    }
    Ok(words)
}
