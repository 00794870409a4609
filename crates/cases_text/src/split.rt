//! Parts of a case's text.

/// A text up to the first such byte, and what stands behind that: nothing, where there is none.
pub fn split_at_byte(text: &[u8], mark: u8) -> (&[u8], &[u8]) {
    for (place, byte) in text.iter().enumerate() {
        if *byte == mark {
            return (&text[..place], &text[place + 1..]);
        }
    }
    (text, b"")
}

/// A text up to its first space, and what stands behind the space.
pub fn split_word(text: &[u8]) -> (&[u8], &[u8]) {
    split_at_byte(text, b' ')
}
