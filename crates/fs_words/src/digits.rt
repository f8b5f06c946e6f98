//! Hexadecimal digits, as the crate `hex` has them, by loops without branches: most bytes of a journal are such digits.

ghost use Rattle.std.specs.Prelude.{◌≡◌, ◌+◌, ◌*◌, ◌<◌, Some, true, ◌++◌, slice_index, length, take, Ok, OnOk, OnErr};
ghost use Rattle.std.specs.List.{list_all};
ghost use Rattle.hex.specs.Hex.{encode_lower, lower_digits, hex_digit_value, is_hex_digit, decode_of};

use std::alloc::AllocError;

/// The digit of a number, in lower case.
fn digit_of(value: u8) -> u8
    requires { value < 16 }
    ensures { result ≡ slice_index lower_digits value }
{
    if value < 10 {
        value + b'0'
    } else {
        value + (b'a' - 10)
    }
}

/// Writes the digits of bytes, two of each, over what is there.
fn write_digits(bytes: &[u8], text: &mut [u8])
    requires { length text.old ≡ 2 * length bytes.now }
    ensures { text.new ≡ encode_lower bytes.now }
{
    'bytes: for i in 0..bytes.len() {
        let byte = bytes[i];
        text[2 * i] = digit_of(byte >> 4);
        text[2 * i + 1] = digit_of(byte & 0x0f);
    }
}

/// The same from a place on, over all that is there.
fn write_from(bytes: &[u8], from: usize, text: &mut Vec<u8>)
    requires { length text.old.items ≡ from + 2 * length bytes.now }
    ensures { text.new.items ≡ take from text.old.items ++ encode_lower bytes.now }
{
    write_digits(bytes, &mut text[from..]);
}

/// Appends the digits of bytes, two of each. The only error is out of memory.
pub(crate) fn push_digits(bytes: &[u8], text: &mut Vec<u8>) -> Result<(), AllocError>
    ensures ok { OnOk result (text.new.items ≡ text.old.items ++ encode_lower bytes.now) }
    ensures err { OnErr result (text.new.items ≡ text.old.items) }
{
    let from = text.len();
    let Some(end) = from.checked_add(2 * bytes.len()) else {
        return Err(AllocError);
    };
    text.resize(end, 0)?;
    write_from(bytes, from, text);
    Ok(())
}

fn is_digit(byte: u8) -> bool
    ensures { result ≡ is_hex_digit byte }
{
    (b'0' <= byte && byte <= b'9')
        || (b'A' <= byte && byte <= b'F')
        || (b'a' <= byte && byte <= b'f')
}

/// Whether all bytes are digits, of either case.
pub(crate) fn are_digits(word: &[u8]) -> bool
    ensures { result ≡ list_all is_hex_digit word.now }
{
    let mut all = true;
    for i in 0..word.len() {
        all = all & is_digit(word[i]);
    }
    all
}

/// The value of a digit, of either case.
fn value_of(digit: u8) -> u8
    requires { is_hex_digit digit ≡ true }
    ensures value { hex_digit_value digit ≡ Some result }
    ensures small { result < 16 }
{
    if digit >= b'a' {
        digit - (b'a' - 10)
    } else if digit >= b'A' {
        digit - (b'A' - 10)
    } else {
        digit - b'0'
    }
}

/// Writes the bytes of digits, two for each, over what is there.
pub(crate) fn write_bytes(word: &[u8], bytes: &mut [u8])
    requires digits { list_all is_hex_digit word.now ≡ true }
    requires len { length word.now ≡ 2 * length bytes.old }
    ensures { decode_of word.now ≡ Ok bytes.new }
{
    'bytes: for i in 0..bytes.len() {
        bytes[i] = value_of(word[2 * i]) * 16 + value_of(word[2 * i + 1]);
    }
}
