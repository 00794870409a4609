//! Classes of bytes that names are made of (RFC 3525, Annex B.2).

ghost use Rattle.std.specs.Prelude.{◌≡◌};
ghost use Rattle.gw_base.specs.Bytes.{is_letter, is_digit, is_hex_digit, is_name_mark, is_name_byte};

/// A letter of either case.
pub(crate) fn is_letter(b: u8) -> bool
    ensures { result ≡ is_letter b }
{
    b.is_ascii_alphabetic()
}

/// A decimal digit.
pub fn is_digit(b: u8) -> bool
    ensures { result ≡ is_digit b }
{
    b.is_ascii_digit()
}

/// A hexadecimal digit of either case.
pub fn is_hex_digit(b: u8) -> bool
    ensures { result ≡ is_hex_digit b }
{
    b.is_ascii_hexdigit()
}

fn is_name_mark(b: u8) -> bool
    ensures { result ≡ is_name_mark b }
{
    b"_/@.-".contains(&b)
}

/// A byte of a termination's name: a letter, a digit or one of `_ / @ . -`.
pub fn is_name_byte(b: u8) -> bool
    ensures { result ≡ is_name_byte b }
{
    is_letter(b) || is_digit(b) || is_name_mark(b)
}
