// Numbers and bytes as texts into a sink.
ghost use Rattle.std.specs.Prelude.{◌≡◌, ◌+◌, ◌<◌, ◌≤◌, length, take, drop, replicate, decimal, Some};
ghost use Rattle.std.specs.Char.{digit_char};
ghost use Rattle.pl_io.specs.Puts.{Puts};
ghost use Rattle.pl_io.specs.Numbers.{hex_digits, hex_text, short_text, byte_text, bytes_text, hex_value, dec_value};

use crate::outside::Sink;
use itoa::Buffer;
use pl_base::Failed;

fn digit_char(digit: u8) -> u8
    requires { digit < 16 }
    ensures { result ≡ digit_char digit }
{
    if digit < 10 {
        b'0' + digit
    } else {
        b'a' + (digit - 10)
    }
}

// The digits of a number in base 16 at the end of a row of zeros, and where they begin.
#[derive(Clone, Copy)]
struct HexDigits {
    text: [u8; 16],
    start: usize,
}

fn hex_digits(value: u64) -> HexDigits
    ensures digits { drop result.start result.text ≡ hex_digits value }
    ensures zeros { take result.start result.text ≡ replicate result.start 48 }
    ensures all { result.start + length (hex_digits value) ≡ 16 }
{
    let mut text = [b'0'; 16];
    let mut start = 16;
    let mut rest = value;
    while rest > 0 {
        start -= 1;
        text[start] = digit_char((rest % 16) as u8);
        rest /= 16;
    }
    HexDigits { text, start }
}

/// Writes a number in hexadecimal with 16 digits.
#[tactic(auto, using(crate::proofs::RoundTrips::hex_reads_back))]
pub fn put_hex<K: Sink>(sink: &mut K, value: u64) -> Result<(), Failed>
    ensures text { Puts (K.written sink.old) (K.written sink.new) (K.faults sink.old) (K.faults sink.new) (hex_text value) result }
    ensures read_back { hex_value (hex_text value) ≡ Some value }
{
    sink.put(&hex_digits(value).text)
}

/// Writes a number in hexadecimal without leading zeros, and 0 as `0`.
#[tactic(auto, using(crate::proofs::RoundTrips::short_reads_back))]
pub fn put_short<K: Sink>(sink: &mut K, value: u64) -> Result<(), Failed>
    ensures text { Puts (K.written sink.old) (K.written sink.new) (K.faults sink.old) (K.faults sink.new) (short_text value) result }
    ensures read_back { hex_value (short_text value) ≡ Some value }
{
    if value == 0 {
        return sink.put(b"0");
    }
    let digits = hex_digits(value);
    sink.put(&digits.text[digits.start..])
}

/// Writes a number in decimal.
#[tactic(auto, using(crate::proofs::RoundTrips::dec_reads_back))]
pub fn put_dec<K: Sink>(sink: &mut K, value: u64) -> Result<(), Failed>
    ensures text { Puts (K.written sink.old) (K.written sink.new) (K.faults sink.old) (K.faults sink.new) (decimal value) result }
    ensures read_back { dec_value (decimal value) ≡ Some value }
{
    sink.put(Buffer::new().format(value).as_bytes())
}

fn put_byte<K: Sink>(sink: &mut K, byte: u8) -> Result<(), Failed>
    ensures { Puts (K.written sink.old) (K.written sink.new) (K.faults sink.old) (K.faults sink.new) (byte_text byte) result }
{
    sink.put(&[digit_char(byte / 16), digit_char(byte % 16)])
}

/// Writes two hexadecimal digits for each byte.
pub fn put_bytes<K: Sink>(sink: &mut K, bytes: &[u8]) -> Result<(), Failed>
    ensures { Puts (K.written sink.old) (K.written sink.new) (K.faults sink.old) (K.faults sink.new) (bytes_text bytes.now) result }
{
    for byte in bytes {
        if put_byte(sink, *byte).is_err() {
            return Err(Failed);
        }
    }
    Ok(())
}
