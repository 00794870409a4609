//! The descriptors of a text, as those of a Modify.

use bumpalo::Bump;
use cases_text::{CaseFault, Page};
use gw_desc::Descriptor;
use gw_msg::{Command, Item, Message, read_message};

/// What is requested of descriptors.
pub trait OnDescriptors {
    /// Writes the answer.
    fn ask(&mut self, descriptors: &[Descriptor<'_>], out: &mut Page) -> Result<(), CaseFault>;
}

/// The command of a message of one request of one action.
fn command_of<'m, 'a>(message: &'m Message<'a>) -> Option<&'m Command<'a>> {
    let [item] = message.items.as_slice() else {
        return None;
    };
    let Item::Request(source) = item else {
        return None;
    };
    let [action] = source.kept_tree()?.actions.as_slice() else {
        return None;
    };
    let [command] = action.commands.as_slice() else {
        return None;
    };
    Some(command)
}

/// The answer to what is requested of the descriptors of a message.
fn ask_message<A: OnDescriptors>(
    text: &[u8],
    taker: &mut A,
    out: &mut Page,
) -> Result<(), CaseFault> {
    let bump = Bump::new(out.alloc());
    let Ok(message) = read_message(&bump, text) else {
        return Err(CaseFault::Form);
    };
    match command_of(&message) {
        Some(command) => taker.ask(command.descriptors.as_slice(), out),
        None => Err(CaseFault::Form),
    }
}

/// The answer to what is requested of the descriptors.
pub fn ask<A: OnDescriptors>(text: &[u8], taker: &mut A, out: &mut Page) -> Result<(), CaseFault> {
    if text.is_empty() {
        return taker.ask(&[], out);
    }
    let mut whole = Page::new(out.alloc());
    whole.put(b"MEGACO/1 mg T=1{C=-{MF=T/1{");
    whole.put(text);
    whole.put(b"}}}");
    ask_message(whole.whole()?, taker, out)
}
