//! How a text grows: the parts of a message, one behind the other in one buffer.

ghost use Rattle.std.specs.Prelude.{◌≡◌, ◌++◌, ◌+◌, ◌%◌, ℕ, List, OnOk, codes, decimal};
ghost use Rattle.gw_reply.specs.Lists.{parts_text};
ghost use Rattle.gw_reply.specs.Replies.{replies_behind};

use gw_base::{Code, Items};
use itoa::Buffer;
use std::alloc::AllocError;

/// So many bytes a short number has at most, of five digits, with the brace behind it.
const SHORT: usize = 6;

/// What has a text in a message.
pub trait Written {
    ghost text: { Self → List ℕ };

    /// Writes the text behind what the buffer holds.
    ///
    /// # Errors
    ///
    /// `AllocError` where memory was refused; the buffer is then of no use.
    fn write_to(&self, out: &mut Vec<u8>) -> Result<(), AllocError>
        ensures { OnOk result (out.new.items ≡ out.old.items ++ text self.now) };
}

/// Writes a number in decimal, without leading zeros, behind what the buffer holds.
///
/// # Errors
///
/// `AllocError` where memory was refused; the buffer may then hold some of the digits.
pub fn write_number(number: u32, out: &mut Vec<u8>) -> Result<(), AllocError>
    ensures { OnOk result (out.new.items ≡ out.old.items ++ decimal number) }
{
    out.extend_from_slice(Buffer::new().format(number).as_bytes())
}

/// The last digit of a number.
fn digit(number: u32) -> u8
    ensures { result ≡ 48 + number % 10 }
{
    b'0' + (number % 10) as u8
}

/// A number of any length, and the brace that opens behind it.
#[inline(never)]
fn write_long_opening(number: u32, out: &mut Vec<u8>) -> Result<(), AllocError>
    ensures { OnOk result (out.new.items ≡ out.old.items ++ (decimal number ++ codes "{")) }
{
    write_number(number, out)?;
    out.push(b'{')?;
    Ok(())
}

/// A number, and the brace that opens behind it: most numbers are short, and are written at once where there is room.
pub(crate) fn write_opening(number: u32, out: &mut Vec<u8>) -> Result<(), AllocError>
    ensures { OnOk result (out.new.items ≡ out.old.items ++ (decimal number ++ codes "{")) }
{
    if out.capacity() - out.len() < SHORT {
        return write_long_opening(number, out);
    }
    match number {
        0..=9 => out.extend_from_slice(&[digit(number), b'{']),
        10..=99 => out.extend_from_slice(&[digit(number / 10), digit(number), b'{']),
        100..=999 => {
            let first = digit(number / 100);
            out.extend_from_slice(&[first, digit(number / 10), digit(number), b'{'])
        }
        1_000..=9_999 => {
            let first = digit(number / 1_000);
            let second = digit(number / 100);
            out.extend_from_slice(&[first, second, digit(number / 10), digit(number), b'{'])
        }
        10_000..=99_999 => {
            let first = digit(number / 10_000);
            let second = digit(number / 1_000);
            let third = digit(number / 100);
            out.extend_from_slice(&[
                first,
                second,
                third,
                digit(number / 10),
                digit(number),
                b'{',
            ])
        }
        _ => write_long_opening(number, out),
    }
}

/// The parts, with a comma between each two, and one before the first where it stands behind something.
pub(crate) fn write_parts<T: Written>(
    behind: bool,
    parts: &[T],
    out: &mut Vec<u8>,
) -> Result<(), AllocError>
    ensures { OnOk result (out.new.items ≡ out.old.items ++ parts_text T.text behind parts.now) }
{
    for (place, part) in parts.iter().enumerate() {
        if behind || 0 < place {
            out.push(b',')?;
        }
        part.write_to(out)?;
    }
    Ok(())
}

/// The replies, as `write_parts` does, or the error that stands for all of them.
pub(crate) fn write_replies<T: Written + Drop>(
    behind: bool,
    replies: &Result<Items<T>, Code>,
    out: &mut Vec<u8>,
) -> Result<(), AllocError>
    ensures { OnOk result (out.new.items ≡ out.old.items ++ replies_behind T.text behind replies.now) }
{
    match replies {
        Ok(parts) => write_parts(behind, parts.as_slice(), out),
        Err(code) if behind => {
            out.push(b',')?;
            code.write_to(out)
        }
        Err(code) => code.write_to(out),
    }
}
