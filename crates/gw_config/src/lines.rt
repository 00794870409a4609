//! The lines of a text, one after another.

ghost use Rattle.std.specs.Prelude.{◌≡◌, ◌<◌, ◌==◌, ◌++◌, ◌∷◌, [], false, length, IfNone, IfSome};
ghost use Rattle.std.specs.List.{list_any};
ghost use Rattle.std.specs.Str.Lines.{lines, strip_carriage_return};

/// What stands before the first LF, and what stands behind it.
fn cut(text: &[u8]) -> Option<(&[u8], &[u8])>
    ensures none { IfNone result (list_any (λ c. c == 10) text.now ≡ false) }
    ensures split { IfSome result (λ r. text.now ≡ r.0.now ++ 10 ∷ r.1.now) }
    ensures first { IfSome result (λ r. list_any (λ c. c == 10) r.0.now ≡ false) }
{
    for (i, b) in text.iter().enumerate() {
        if *b == b'\n' {
            return Some((&text[..i], &text[i + 1..]));
        }
    }
    None
}

/// What stood before an LF, without the CR at its end.
fn without_return(raw: &[u8]) -> &[u8]
    ensures { result.now ≡ strip_carriage_return raw.now }
{
    match raw {
        [front @ .., b'\r'] => front,
        _ => raw,
    }
}

/// The first line of a text, and what stands behind it; none of a text of no bytes.
pub(crate) fn next_line(text: &[u8]) -> Option<(&[u8], &[u8])>
    ensures none { IfNone result (text.now ≡ []) }
    ensures lines { IfSome result (λ r. lines text.now ≡ r.0.now ∷ lines r.1.now) }
    ensures less { IfSome result (λ r. length r.1.now < length text.now) }
{
    if text.is_empty() {
        return None;
    }
    match cut(text) {
        Some((raw, behind)) => Some((without_return(raw), behind)),
        None => Some((text, b"")),
    }
}
