//! What may stand in a text, a literal or a number of JSON.
ghost use Rattle.std.specs.Prelude.{◌≡◌, ◌<◌};
ghost use Rattle.std.specs.Bool.{OnTrue};
ghost use Rattle.path_files.specs.Dues.{behind_escape, behind_fraction, behind_hex, behind_letter, behind_text, behind_whole, is_escaped, is_letter};

use crate::dues::{Due, behind_value};

// Whether the literals, each with a full stop behind it, have that letter there.
fn is_letter(at: usize, letter: u8) -> bool
    ensures is { result ≡ is_letter at letter }
    ensures within { OnTrue result (at < 16) }
{
    match b"true.false.null.".get(at) {
        Some(found) => *found == letter,
        None => false,
    }
}

/// What is due behind that letter of the literals.
pub(crate) fn behind_letter(at: usize, byte: u8) -> Option<Due>
    ensures { result ≡ behind_letter at byte }
{
    if !is_letter(at, byte) {
        None
    } else if is_letter(at + 1, b'.') {
        Some(Due::Comma)
    } else {
        Some(Due::Letters { at: at + 1 })
    }
}

/// What is due within a text.
pub(crate) fn behind_text(key: bool, byte: u8) -> Option<Due>
    ensures { result ≡ behind_text key byte }
{
    match byte {
        b'"' if key => Some(Due::Colon),
        b'"' => Some(Due::Comma),
        b'\\' => Some(Due::Escape { key }),
        0..=31 => None,
        _ => Some(Due::Text { key }),
    }
}

// Whether the byte may stand behind a backslash.
fn is_escaped(byte: u8) -> bool
    ensures { result ≡ is_escaped byte }
{
    matches!(byte, b'"' | b'\\' | b'/' | b'b' | b'f' | b'n' | b'r' | b't')
}

/// What is due behind a backslash and that byte.
pub(crate) fn behind_escape(key: bool, byte: u8) -> Option<Due>
    ensures { result ≡ behind_escape key byte }
{
    match byte {
        b'u' => Some(Due::Hex { key, left: 4 }),
        _ if is_escaped(byte) => Some(Due::Text { key }),
        _ => None,
    }
}

/// What is due behind one of so many hexadecimal digits.
pub(crate) fn behind_hex(key: bool, left: u8, byte: u8) -> Option<Due>
    ensures { result ≡ behind_hex key left byte }
{
    if !byte.is_ascii_hexdigit() {
        None
    } else if left <= 1 {
        Some(Due::Text { key })
    } else {
        Some(Due::Hex {
            key,
            left: left - 1,
        })
    }
}

/// What is due behind the whole part of a number.
pub(crate) fn behind_whole(closing: Option<u8>, byte: u8) -> Option<Due>
    ensures { result ≡ behind_whole closing byte }
{
    match byte {
        b'.' => Some(Due::Point),
        b'e' | b'E' => Some(Due::Exponent),
        _ => behind_value(closing, byte),
    }
}

/// What is due behind a digit of a number's fraction.
pub(crate) fn behind_fraction(closing: Option<u8>, byte: u8) -> Option<Due>
    ensures { result ≡ behind_fraction closing byte }
{
    match byte {
        b'0'..=b'9' => Some(Due::Fraction),
        b'e' | b'E' => Some(Due::Exponent),
        _ => behind_value(closing, byte),
    }
}
