// The arguments of a line, and the values that they stand for.
ghost use Rattle.std.specs.Prelude.{◌≡◌, is_some, min, option_map, IfOk};
ghost use Rattle.std.specs.List.{list_all};
ghost use Rattle.pl_io.specs.Numbers.{is_hex_digit};
ghost use Rattle.pl_history.specs.Rules.{is_name_character, is_name};
ghost use Rattle.world_lines.specs.Arguments.{within, small_number_of, short_of, enclave_of, budget_of, length_of, address_of, perms_of_text, bytes_of_hex, hex_bytes_of, name_of};

use hex::FromHexError;
use pl_base::{EncNo, Listed, Memory, Perms, Va};
use pl_io::{read_dec, read_hex};
use std::alloc::Global;

// The most bytes of a page, or of a line.
const MOST_BYTES: usize = 4096;

/// The number, where there is one from `low` to `high`.
pub fn within(low: u32, high: u32, number: Option<u64>) -> Option<u32>
    ensures { result ≡ within low high number }
{
    match number {
        Some(n) if u64::from(low) <= n && n <= u64::from(high) => Some(n as u32),
        _ => None,
    }
}

/// A decimal number below 2^32.
pub(crate) fn small_number_of(text: &[u8]) -> Option<u32>
    ensures { result ≡ small_number_of text.now }
{
    within(0, u32::MAX, read_dec(text))
}

/// The same, of which 255 and more are one: no enclave, image or actor has such a number.
pub(crate) fn short_of(text: &[u8]) -> Option<u8>
    ensures { result ≡ short_of text.now }
{
    let number = small_number_of(text)?;
    Some(number.min(255) as u8)
}

/// An enclave number; 255 stands for 255 and more.
pub(crate) fn enclave_of(text: &[u8]) -> Option<EncNo>
    ensures { result ≡ enclave_of text.now }
{
    Some(EncNo(short_of(text)?))
}

/// A number of instructions, at least 1.
pub(crate) fn budget_of(text: &[u8]) -> Option<u32>
    ensures { result ≡ budget_of text.now }
{
    within(1, u32::MAX, read_dec(text))
}

/// A number of bytes, 1 to 4,096.
pub(crate) fn length_of(text: &[u8]) -> Option<u32>
    ensures { result ≡ length_of text.now }
{
    within(1, 4096, read_dec(text))
}

/// An address of the host, in hexadecimal.
pub(crate) fn address_of(text: &[u8]) -> Option<Va>
    ensures { result ≡ address_of text.now }
{
    Some(Va(read_hex(text)?))
}

/// The permissions `r`, `rw`, `rx` or `rwx`; no other text is any.
pub fn perms_of_text(text: &[u8]) -> Option<Perms>
    ensures { result ≡ perms_of_text text.now }
{
    match text {
        b"r" => Some(Perms(1)),
        b"rw" => Some(Perms(3)),
        b"rx" => Some(Perms(5)),
        b"rwx" => Some(Perms(7)),
        _ => None,
    }
}

fn is_hex_digit(byte: u8) -> bool
    ensures { result ≡ is_hex_digit byte }
{
    matches!(byte, b'0'..=b'9' | b'a'..=b'f')
}

// Whether each byte is one of `0-9a-f`.
fn are_hex_digits(text: &[u8]) -> bool
    ensures { result ≡ list_all is_hex_digit text.now }
{
    text.iter().all(|byte| is_hex_digit(*byte))
}

/// Whether a text is at most 4,096 bytes, two digits `0-9a-f` each.
#[tactic(auto, using(crate::proofs::HexTexts::is_hex_text))]
pub fn is_hex_text(text: &[u8]) -> bool
    ensures { result ≡ is_some (bytes_of_hex text.now) }
{
    text.len() % 2 == 0 && text.len() <= 2 * MOST_BYTES && are_hex_digits(text)
}

/// The bytes that a text is: at most 4,096, two digits `0-9a-f` each.
pub fn bytes_of_hex(alloc: Global, text: &[u8]) -> Result<Option<Vec<u8>>, Memory>
    ensures { IfOk result (λ found. option_map (λ v. v.items) found ≡ bytes_of_hex text.now) }
{
    if text.len() > 2 * MOST_BYTES || !are_hex_digits(text) {
        return Ok(None);
    }
    match hex::decode(alloc, text) {
        Ok(bytes) => Ok(Some(bytes)),
        Err(FromHexError::OutOfMemory) => Err(Memory),
        Err(_) => Ok(None),
    }
}

/// The same, at least one.
pub(crate) fn hex_bytes_of(alloc: Global, text: &[u8]) -> Result<Option<Listed<u8>>, Memory>
    ensures { IfOk result (λ found. found ≡ hex_bytes_of text.now) }
{
    if text.is_empty() {
        return Ok(None);
    }
    let Some(bytes) = bytes_of_hex(alloc, text)? else {
        return Ok(None);
    };
    Ok(Some(Listed::from_vec(bytes)))
}

fn is_name_character(byte: u8) -> bool
    ensures { result ≡ is_name_character byte }
{
    matches!(byte, b'a'..=b'z' | b'0'..=b'9')
}

fn are_name_characters(text: &[u8]) -> bool
    ensures { result ≡ list_all is_name_character text.now }
{
    text.iter().all(|byte| is_name_character(*byte))
}

fn is_name(text: &[u8]) -> bool
    ensures { result ≡ is_name text.now }
{
    !text.is_empty() && text.len() <= 16 && are_name_characters(text)
}

/// 1 to 16 of `a-z` and `0-9`.
pub(crate) fn name_of(alloc: Global, text: &[u8]) -> Result<Option<Listed<u8>>, Memory>
    ensures { IfOk result (λ found. found ≡ name_of text.now) }
{
    if !is_name(text) {
        return Ok(None);
    }
    Ok(Some(Listed::from_vec(Vec::from_slice(alloc, text)?)))
}
