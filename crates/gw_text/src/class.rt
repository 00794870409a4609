//! Classes of bytes (RFC 3525, Annex B.2).

ghost use Rattle.std.specs.Prelude.{◌≡◌};
ghost use Rattle.gw_text.specs.Lexical.{is_eol, is_blank, is_comment_byte, is_safe, is_solid};

/// The end of a line: CR or LF.
pub fn is_eol(b: u8) -> bool
    ensures { result ≡ is_eol b }
{
    b == b'\r' || b == b'\n'
}

/// A space, a tab or the end of a line.
pub fn is_blank(b: u8) -> bool
    ensures { result ≡ is_blank b }
{
    b == b' ' || b == b'\t' || is_eol(b)
}

/// A byte of a comment, behind its `;` and before the end of its line: any but byte 0.
pub fn is_comment_byte(b: u8) -> bool
    ensures { result ≡ is_comment_byte b }
{
    !is_eol(b) && b != 0
}

/// A byte with which no white space begins.
pub fn is_solid(b: u8) -> bool
    ensures { result ≡ is_solid b }
{
    !(is_blank(b) || b == b';')
}

// Each safe byte stands at its own place, and a comma at every other place.
static SAFE: [u8; 256] = *b"\
    ,,,,,,,,,,,,,,,,,,,,,,,,,,,,,,,,\
    ,!,,$%&'()*+,-./0123456789,,,,,?\
    @ABCDEFGHIJKLMNOPQRSTUVWXYZ,\\,^_\
    `abcdefghijklmnopqrstuvwxyz,|,~,\
    ,,,,,,,,,,,,,,,,,,,,,,,,,,,,,,,,\
    ,,,,,,,,,,,,,,,,,,,,,,,,,,,,,,,,\
    ,,,,,,,,,,,,,,,,,,,,,,,,,,,,,,,,\
    ,,,,,,,,,,,,,,,,,,,,,,,,,,,,,,,,";

/// A byte of a word: a letter, a digit or one of ``! $ % & ' ( ) * + - . / ? @ \ ^ _ ` | ~``.
pub fn is_safe(b: u8) -> bool
    ensures { result ≡ is_safe b }
{
    SAFE[b as usize] != b','
}

// At the place of each byte with which white space begins stands a comma, and an x at every other place.
static SPACE_STARTS: [u8; 256] = *b"\
    xxxxxxxxx,,xx,xxxxxxxxxxxxxxxxxx\
    ,xxxxxxxxxxxxxxxxxxxxxxxxxx,xxxx\
    xxxxxxxxxxxxxxxxxxxxxxxxxxxxxxxx\
    xxxxxxxxxxxxxxxxxxxxxxxxxxxxxxxx\
    xxxxxxxxxxxxxxxxxxxxxxxxxxxxxxxx\
    xxxxxxxxxxxxxxxxxxxxxxxxxxxxxxxx\
    xxxxxxxxxxxxxxxxxxxxxxxxxxxxxxxx\
    xxxxxxxxxxxxxxxxxxxxxxxxxxxxxxxx";

/// The same as `is_solid`, for scans of many bytes.
pub fn is_solid_in_scan(b: u8) -> bool
    ensures { result ≡ is_solid b }
{
    SPACE_STARTS[b as usize] != b','
}
