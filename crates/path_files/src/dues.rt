//! What may stand in a text of JSON.
ghost use Rattle.std.specs.Prelude.{◌≡◌};
ghost use Rattle.path_files.specs.Dues.{begins_value, behind_byte, behind_digit, behind_value, end_or, is_space, only, space_or};

use crate::scalars::{
    behind_escape, behind_fraction, behind_hex, behind_letter, behind_text, behind_whole,
};

/// What is due in a text of JSON.
#[derive(Clone, Copy)]
pub(crate) enum Due {
    /// The object that the text is.
    Object,
    Value,
    /// The first item of a list, or its end.
    FirstItem,
    /// The first key of an object, or its end.
    FirstKey,
    Key,
    Colon,
    /// A comma behind a value, or the end of what that is in.
    Comma,
    /// More of a text, which may be a key, or its closing quote.
    Text { key: bool },
    /// What stands behind a backslash in a text.
    Escape { key: bool },
    /// So many hexadecimal digits.
    Hex { key: bool, left: u8 },
    /// That letter of the literals.
    Letters { at: usize },
    /// What stands behind a number's minus, its first 0, its whole part, its point, and a digit behind that.
    Minus,
    Zero,
    Whole,
    Point,
    Fraction,
    /// What stands behind the letter of a number's exponent, its sign, and a digit.
    Exponent,
    Sign,
    Power,
}

// Whether the byte is one of JSON's blanks.
fn is_space(byte: u8) -> bool
    ensures { result ≡ is_space byte }
{
    byte == b' ' || byte == b'\t' || byte == b'\n' || byte == b'\r'
}

// The next, behind that byte alone.
fn only(mark: u8, next: Due, byte: u8) -> Option<Due>
    ensures { result ≡ only mark next byte }
{
    if byte == mark { Some(next) } else { None }
}

// What is due behind the end of a list or an object, or else the next.
fn end_or(mark: u8, byte: u8, next: Option<Due>) -> Option<Due>
    ensures { result ≡ end_or mark byte next }
{
    if byte == mark { Some(Due::Comma) } else { next }
}

// The same is due behind a blank, or else the next.
fn space_or(due: Due, byte: u8, next: Option<Due>) -> Option<Due>
    ensures { result ≡ space_or due byte next }
{
    if is_space(byte) { Some(due) } else { next }
}

/// The next, behind a digit.
pub(crate) fn behind_digit(next: Due, byte: u8) -> Option<Due>
    ensures { result ≡ behind_digit next byte }
{
    if byte.is_ascii_digit() {
        Some(next)
    } else {
        None
    }
}

// What is due behind the first byte of a value.
fn begins_value(byte: u8) -> Option<Due>
    ensures { result ≡ begins_value byte }
{
    match byte {
        b'{' => Some(Due::FirstKey),
        b'[' => Some(Due::FirstItem),
        b'"' => Some(Due::Text { key: false }),
        b'-' => Some(Due::Minus),
        b'0' => Some(Due::Zero),
        b't' => Some(Due::Letters { at: 1 }),
        b'f' => Some(Due::Letters { at: 6 }),
        b'n' => Some(Due::Letters { at: 12 }),
        _ => behind_digit(Due::Whole, byte),
    }
}

/// What is due behind a value, where that closes the innermost bracket that is open.
pub(crate) fn behind_value(closing: Option<u8>, byte: u8) -> Option<Due>
    ensures { result ≡ behind_value closing byte }
{
    if is_space(byte) {
        return Some(Due::Comma);
    }
    let bracket = closing?;
    if byte == bracket {
        Some(Due::Comma)
    } else if byte != b',' {
        None
    } else if bracket == b'}' {
        Some(Due::Key)
    } else {
        Some(Due::Value)
    }
}

/// What is due where that was, behind that byte, if it may stand there.
pub(crate) fn behind_byte(closing: Option<u8>, due: Due, byte: u8) -> Option<Due>
    ensures { result ≡ behind_byte closing due byte }
{
    let key = only(b'"', Due::Text { key: true }, byte);
    match due {
        Due::Object => space_or(due, byte, only(b'{', Due::FirstKey, byte)),
        Due::Value => space_or(due, byte, begins_value(byte)),
        Due::FirstItem => space_or(due, byte, end_or(b']', byte, begins_value(byte))),
        Due::FirstKey => space_or(due, byte, end_or(b'}', byte, key)),
        Due::Key => space_or(due, byte, key),
        Due::Colon => space_or(due, byte, only(b':', Due::Value, byte)),
        Due::Comma => behind_value(closing, byte),
        Due::Text { key } => behind_text(key, byte),
        Due::Escape { key } => behind_escape(key, byte),
        Due::Hex { key, left } => behind_hex(key, left, byte),
        Due::Letters { at } => behind_letter(at, byte),
        Due::Minus if byte == b'0' => Some(Due::Zero),
        Due::Minus => behind_digit(Due::Whole, byte),
        Due::Whole if byte.is_ascii_digit() => Some(due),
        Due::Zero | Due::Whole => behind_whole(closing, byte),
        Due::Point => behind_digit(Due::Fraction, byte),
        Due::Fraction => behind_fraction(closing, byte),
        Due::Exponent if byte == b'+' || byte == b'-' => Some(Due::Sign),
        Due::Exponent | Due::Sign => behind_digit(Due::Power, byte),
        Due::Power if byte.is_ascii_digit() => Some(due),
        Due::Power => behind_value(closing, byte),
    }
}
