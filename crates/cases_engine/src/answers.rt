//! Answers, as cases write them.

use cases_text::Page;
use gw_base::Items;
use gw_engine::Datagram;

/// The peer that datagrams come from which are a burst of their own.
pub const PEER: u32 = 7;

/// A line for an answer, if there is one. Its bytes are taken out, as who keeps them does.
pub fn write_answer(answer: Option<Datagram>, out: &mut Page) {
    let Some(answer) = answer else {
        out.put(b"no answer");
        return;
    };
    if answer.peer != PEER {
        out.put(b"to ");
        out.number(u64::from(answer.peer));
        out.put(b": ");
    }
    match answer.into_bytes(out.alloc()) {
        Ok(bytes) => out.message(bytes.as_slice()),
        Err(_) => out.lose(),
    }
    out.put(b"\n");
}

/// A line for each answer.
pub fn write_answers(answers: Items<Datagram>, out: &mut Page) {
    if answers.is_empty() {
        write_answer(None, out);
    }
    for answer in answers.into_vec() {
        write_answer(Some(answer), out);
    }
}
