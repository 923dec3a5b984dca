// Numbers from their texts.
ghost use Rattle.std.specs.Prelude.{◌≡◌, ◌<◌, IfSome, if◌then◌else◌};
ghost use Rattle.std.specs.Char.{digit_value};
ghost use Rattle.pl_io.specs.Numbers.{is_hex_digit, is_dec_digit, hex_value, dec_value};

fn hex_digit(byte: u8) -> Option<u8>
    ensures value { result ≡ (if is_hex_digit byte then Some (digit_value byte) else None) }
    ensures small { IfSome result (λ d. d < 16) }
{
    match byte {
        b'0'..=b'9' => Some(byte - b'0'),
        b'a'..=b'f' => Some(byte - b'a' + 10),
        _ => None,
    }
}

fn dec_digit(byte: u8) -> Option<u8>
    ensures value { result ≡ (if is_dec_digit byte then Some (digit_value byte) else None) }
    ensures small { IfSome result (λ d. d < 10) }
{
    match byte {
        b'0'..=b'9' => Some(byte - b'0'),
        _ => None,
    }
}

/// The number that 1 to 16 hexadecimal digits `0-9a-f` stand for. `None` for any other text.
pub fn read_hex(text: &[u8]) -> Option<u64>
    ensures { result ≡ hex_value text.now }
{
    if text.is_empty() || text.len() > 16 {
        return None;
    }
    let mut value = 0;
    for byte in text {
        let digit = hex_digit(*byte)?;
        value = value * 16 + u64::from(digit);
    }
    Some(value)
}

/// The number below 2^64 that 1 to 20 decimal digits stand for. `None` for any other text.
pub fn read_dec(text: &[u8]) -> Option<u64>
    ensures { result ≡ dec_value text.now }
{
    if text.is_empty() || text.len() > 20 {
        return None;
    }
    let mut value: u128 = 0;
    for byte in text {
        let digit = dec_digit(*byte)?;
        value = value * 10 + u128::from(digit);
    }
    u64::try_from(value).ok()
}
