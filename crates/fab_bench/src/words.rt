//! The words that a job is given by.

use std::alloc::{AllocError, Global};
use std::env::FillError;
use std::rt::Env;
use std::str;

/// The words after the program's name.
#[derive(Drop)]
pub struct Words {
    words: Vec<Vec<u8>>,
}

impl Words {
    /// The word at a place, if there is one.
    pub fn text(&self, place: usize) -> Option<&str> {
        match self.words.get(place) {
            Some(word) => str::from_utf8(word).ok(),
            None => None,
        }
    }

    /// The number that the word at a place gives, or 0.
    pub fn number(&self, place: usize) -> u64 {
        match self.words.get(place) {
            Some(word) => number_of(word),
            None => 0,
        }
    }
}

// The number that decimal digits give.
fn number_of(word: &[u8]) -> u64 {
    let mut number: u64 = 0;
    for digit in word {
        number = number
            .saturating_mul(10)
            .saturating_add(u64::from(digit.saturating_sub(b'0')));
    }
    number
}

// The word at a place, of at most 256 bytes.
fn word_at<R: Env + AllocGlobal>(rt: &R, place: usize) -> Result<Option<Vec<u8>>, AllocError> {
    let mut word = vec![in rt.alloc(); 0u8; 256]?;
    match rt.arg(place, word.as_mut_slice()) {
        Ok(length) => {
            word.truncate(length);
            Ok(Some(word))
        }
        Err(FillError::NotPresent) => Ok(None),
        Err(FillError::TooLong) => Ok(None),
    }
}

/// The words that the program was started with.
pub fn given<R: Env + AllocGlobal>(rt: &R) -> Result<Words, AllocError> {
    let mut words = Vec::new(rt.alloc());
    for place in 1..16 {
        match word_at(rt, place)? {
            Some(word) => words.push(word)?,
            None => break,
        }
    }
    Ok(Words { words })
}
