//! Writing the answers of bursts.

ghost use Rattle.std.specs.Prelude.{◌≡◌, ℕ, [], OnOk, OnErr, IfErr, take, decimal};
ghost use Rattle.std.specs.Io.KnownBytes.{Appends};
ghost use Rattle.gw_front.specs.AnswerTexts.{header_text, answer_text, answers_text};
ghost use Rattle.gw_front.specs.Outputs.{Moves, IsFront};
ghost use Rattle.gw_front.specs.declared.replay_fault.ReplayFault.TheVariants.{Write as WriteFault};

use crate::replay_fault::ReplayFault;
use crate::writing::{finish, put};
use gw_engine::Datagram;
use itoa::Buffer;
use std::io::Write;

/// Puts a number without leading zeros.
#[inline(always)]
fn put_number<W: Write>(out: &mut W, held: &mut Vec<u8>, number: usize) -> Result<(), ReplayFault>
    ensures whole { OnOk result (Moves (W.contents out.old) held.old.items (W.contents out.new) held.new.items
        (decimal number)) }
    ensures front { OnErr result (IsFront (W.contents out.old) held.old.items (W.contents out.new) (decimal number)) }
    ensures fault { IfErr result (λ fault. fault ≡ WriteFault) }
{
    let mut buffer = Buffer::new();
    put(out, held, buffer.format(number).as_bytes())
}

/// Puts the line that heads an answer.
fn put_header<W: Write>(
    out: &mut W,
    held: &mut Vec<u8>,
    peer: u32,
    size: usize,
) -> Result<(), ReplayFault>
    ensures whole { OnOk result (Moves (W.contents out.old) held.old.items (W.contents out.new) held.new.items
        (header_text peer size)) }
    ensures front { OnErr result (IsFront (W.contents out.old) held.old.items (W.contents out.new)
        (header_text peer size)) }
    ensures fault { IfErr result (λ fault. fault ≡ WriteFault) }
{
    put(out, held, b"D ")?;
    put_number(out, held, peer as usize)?;
    put(out, held, b" ")?;
    put_number(out, held, size)?;
    put(out, held, b"\n")
}

/// Puts one answer.
fn put_answer<W: Write>(
    out: &mut W,
    held: &mut Vec<u8>,
    answer: &Datagram,
) -> Result<(), ReplayFault>
    ensures whole { OnOk result (Moves (W.contents out.old) held.old.items (W.contents out.new) held.new.items
        (answer_text answer.now)) }
    ensures front { OnErr result (IsFront (W.contents out.old) held.old.items (W.contents out.new)
        (answer_text answer.now)) }
    ensures fault { IfErr result (λ fault. fault ≡ WriteFault) }
{
    let bytes = answer.bytes.as_slice();
    put_header(out, held, answer.peer, bytes.len())?;
    put(out, held, bytes)?;
    put(out, held, b"\n")
}

/// Writes the answers of a burst and the line `.`, and flushes. The buffer, which has nothing before, has nothing then.
/// This takes no memory.
///
/// # Errors
///
/// `Write`: a front of the text is out.
pub(crate) fn write_answers<W: Write>(
    out: &mut W,
    held: &mut Vec<u8>,
    answers: &[Datagram],
) -> Result<(), ReplayFault>
    requires { held.old.items ≡ [] }
    ensures whole { OnOk result (Appends (W.contents out.old) (W.contents out.new) (answers_text answers.now)) }
    ensures empty { OnOk result (held.new.items ≡ []) }
    ensures front { OnErr result ((n : ℕ) × Appends (W.contents out.old) (W.contents out.new)
        (take n (answers_text answers.now))) }
    ensures fault { IfErr result (λ fault. fault ≡ WriteFault) }
{
    for answer in answers {
        put_answer(out, held, answer)?;
    }
    put(out, held, b".\n")?;
    finish(out, held)
}
