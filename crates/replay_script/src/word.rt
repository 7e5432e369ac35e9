//! What the words of a line spell.

ghost use Rattle.std.specs.Prelude.{◌≡◌, IfOk};
ghost use Rattle.std.specs.Option.{option_map};
ghost use Rattle.std.specs.List.{list_all};
ghost use Rattle.std.specs.Char.{is_ascii_digit};
ghost use Rattle.replay_script.specs.Word.{name_of, number_of, body_of, bytes_of, random_word_of, status_of, seconds_of, is_name_byte};

use hex::FromHexError;
use std::alloc::{AllocError, Global};
use std::str;

/// A tenant's name has at most so many bytes.
const MAX_NAME: usize = 64;

/// A number has at most so many digits, so that it is below 2^64.
const MAX_DIGITS: usize = 19;

/// A post's body, or a document, has at most so many bytes.
const MAX_BODY: usize = 20_971_520;

/// A wait of more seconds is taken as this one: a day.
const LONGEST_WAIT: u64 = 86_400;

/// A tenant's name.
#[tactic(auto, unfolding(crate::specs::Word::name_of))]
pub fn name(word: &[u8]) -> Option<&str>
    ensures { option_map (λ text. text.now) result ≡ name_of word.now }
{
    if word.is_empty() || word.len() > MAX_NAME || !has_name_bytes(word) {
        return None;
    }
    str::from_utf8(word).ok()
}

fn has_name_bytes(word: &[u8]) -> bool
    ensures { result ≡ list_all is_name_byte word.now }
{
    word.iter().all(|byte| is_name_byte(*byte))
}

fn is_name_byte(byte: u8) -> bool
    ensures { result ≡ is_name_byte byte }
{
    byte.is_ascii_alphanumeric() || matches!(byte, b'_' | b'-' | b'.')
}

/// A number in decimal digits.
#[tactic(auto, unfolding(crate::specs::Word::number_of))]
pub fn number(word: &[u8]) -> Option<u64>
    ensures { result ≡ number_of word.now }
{
    if word.is_empty() || word.len() > MAX_DIGITS || !has_digits(word) {
        return None;
    }
    let digits = str::from_utf8(word).ok()?;
    digits.parse().ok()
}

fn has_digits(word: &[u8]) -> bool
    ensures { result ≡ list_all is_ascii_digit word.now }
{
    word.iter().all(|byte| byte.is_ascii_digit())
}

/// A number below 2^32.
#[tactic(auto, unfolding(crate::specs::Word::random_word_of))]
pub fn random_word(word: &[u8]) -> Option<u32>
    ensures { result ≡ random_word_of word.now }
{
    let number = number(word)?;
    if number > u64::from(u32::MAX) {
        return None;
    }
    Some(number as u32)
}

/// A status of HTTP, from 100 to 999.
#[tactic(auto, unfolding(crate::specs::Word::status_of))]
pub fn status(word: &[u8]) -> Option<u16>
    ensures { result ≡ status_of word.now }
{
    let number = number(word)?;
    if number < 100 || number > 999 {
        return None;
    }
    Some(number as u16)
}

/// Seconds to wait, at most a day, or `-` for none.
#[tactic(auto, unfolding(crate::specs::Word::seconds_of))]
pub fn seconds(word: &[u8]) -> Option<Option<u32>>
    ensures { result ≡ seconds_of word.now }
{
    if word == b"-".as_slice() {
        return Some(None);
    }
    let seconds = number(word)?;
    Some(Some(seconds.min(LONGEST_WAIT) as u32))
}

/// A post's body, or a document.
#[tactic(auto, unfolding(crate::specs::Word::body_of))]
pub fn body(alloc: Global, word: &[u8]) -> Result<Option<Vec<u8>>, AllocError>
    ensures { IfOk result (λ found. option_map (λ bytes. bytes.items) found ≡ body_of word.now) }
{
    if word.len() > 2 * MAX_BODY {
        return Ok(None);
    }
    bytes(alloc, word)
}

/// Bytes of any number, as hexadecimal digits, or `-` for none.
#[tactic(auto, unfolding(crate::specs::Word::bytes_of))]
pub fn bytes(alloc: Global, word: &[u8]) -> Result<Option<Vec<u8>>, AllocError>
    ensures { IfOk result (λ found. option_map (λ bytes. bytes.items) found ≡ bytes_of word.now) }
{
    if word == b"-".as_slice() {
        return Ok(Some(Vec::new(alloc)));
    }
    if word.is_empty() {
        return Ok(None);
    }
    match hex::decode(alloc, word) {
        Ok(bytes) => Ok(Some(bytes)),
        Err(FromHexError::OutOfMemory) => Err(AllocError),
        Err(FromHexError::OddLength) => Ok(None),
        Err(FromHexError::InvalidHexCharacter { .. }) => Ok(None),
        Err(FromHexError::InvalidStringLength) => Ok(None),
    }
}
