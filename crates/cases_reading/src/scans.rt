//! Scans at the front of a text: what each takes, with `%|` where the cursor stands behind it.

use cases_text::{Page, as_text, split_at_byte, split_word};
use gw_text::{Cursor, ScanFault, token_of};

/// All that the cursor has before it, at most so much as the text.
fn rest(out: &Page, cursor: &mut Cursor<'_>, text: &[u8]) -> Page {
    let mut rest = Page::new(out.alloc());
    for _byte in text {
        let Some(byte) = cursor.peek() else {
            break;
        };
        cursor.byte(byte);
        rest.put(&[byte]);
    }
    rest
}

/// What a scan took and left; or its fault, behind which nothing was taken.
fn write_cut(
    out: &mut Page,
    text: &[u8],
    cursor: &mut Cursor<'_>,
    answer: Result<&[u8], ScanFault>,
) {
    let left = rest(out, cursor, text);
    match answer {
        Ok(span) => {
            out.encoded(span);
            out.put(b"%|");
            out.page(&left);
        }
        Err(fault) => {
            out.display(&fault);
            match left.whole() {
                Ok(left) if left == text => {}
                Ok(_) => out.put(b", and the cursor moved"),
                Err(fault) => out.put(fault.text()),
            }
        }
    }
}

/// A number, and what the scan left.
fn write_uint32(out: &mut Page, text: &[u8]) {
    let mut cursor = Cursor::new(text);
    match cursor.uint32() {
        Ok(number) => {
            write_cut(out, text, &mut cursor, Ok(number.span));
            out.put(b" is ");
            out.number(u64::from(number.value));
        }
        Err(fault) => write_cut(out, text, &mut cursor, Err(fault)),
    }
}

/// A group at most so deep.
fn write_balanced(out: &mut Page, given: &[u8]) {
    let (depth, text) = split_word(given);
    match Cursor::new(depth).number(2, 16) {
        Ok(depth) => {
            let mut cursor = Cursor::new(text);
            let answer = cursor.balanced(depth.value);
            write_cut(out, text, &mut cursor, answer);
        }
        Err(fault) => out.display(&fault),
    }
}

fn write_token(out: &mut Page, text: &[u8]) {
    match token_of(text) {
        Some(token) => out.named(&token),
        None => out.put(b"no token"),
    }
}

/// One look or step of a cursor: whether it was so.
fn look(cursor: &mut Cursor<'_>, step: &[u8]) -> bool {
    let Some((last, front)) = step.split_last() else {
        return false;
    };
    match as_text(front) {
        "sign" => cursor.sign(*last),
        "ahead" => cursor.is_ahead(*last),
        "at" => cursor.is_at(*last),
        "byte" => cursor.byte(*last),
        "empt" => cursor.is_empty(),
        "spac" => !cursor.lwsp().is_empty(),
        _ => match step.strip_prefix(b"prefix") {
            Some(prefix) => cursor.prefix(prefix),
            None => false,
        },
    }
}

/// Steps of one cursor, one behind the other, with a comma between them: whether each was so, and what is left.
fn write_steps(out: &mut Page, given: &[u8]) {
    let (steps, text) = split_word(given);
    let mut cursor = Cursor::new(text);
    let mut later = steps;
    // Each turn takes one byte or more.
    for _turn in steps {
        if later.is_empty() {
            break;
        }
        let (step, behind) = split_at_byte(later, b',');
        out.put(if look(&mut cursor, step) {
            b"yes "
        } else {
            b"no "
        });
        later = behind;
    }
    out.put(b"%|");
    let left = rest(out, &mut cursor, text);
    out.page(&left);
}

/// Answers a case of a scan without a word of its own. False: it is none.
fn scans(call: &str, text: &[u8], out: &mut Page) -> bool {
    let mut cursor = Cursor::new(text);
    let answer = match call {
        "lwsp" => Ok(cursor.lwsp()),
        "sep" => cursor.sep(),
        "word" => cursor.word(),
        "solid" => cursor.solid(),
        "octets" => cursor.octets(),
        "quoted" => cursor.quoted(),
        "run" => cursor.run(),
        "bracket" => cursor.bracket(),
        _ => return false,
    };
    write_cut(out, text, &mut cursor, answer);
    true
}

/// Answers a case of these calls. False: it is none.
pub fn answers(call: &str, text: &[u8], out: &mut Page) -> bool {
    match call {
        "uint32" => write_uint32(out, text),
        "balanced" => write_balanced(out, text),
        "token" => write_token(out, text),
        "steps" => write_steps(out, text),
        _ => return scans(call, text, out),
    }
    true
}
