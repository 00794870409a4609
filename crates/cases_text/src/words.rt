//! Words of cases: numbers, contexts and error codes.

use gw_base::{Code, CtxNum, CtxRef};
use std::str;

/// Every error code.
const CODES: [Code; 20] = [
    Code::SyntaxError,
    Code::VersionNotSupported,
    Code::UnknownContext,
    Code::NoContextLeft,
    Code::IllegalCombination,
    Code::UnknownTermination,
    Code::NoWildcardMatch,
    Code::NoTerminationLeft,
    Code::AlreadyInContext,
    Code::ContextFull,
    Code::NotInContext,
    Code::CommandSyntax,
    Code::UnknownCommand,
    Code::UnknownDescriptor,
    Code::IllegalDescriptor,
    Code::DescriptorTwice,
    Code::PropertyTwice,
    Code::NotImplemented,
    Code::InsufficientResources,
    Code::ReplyTooLong,
];

/// A word as text: none, where it has other bytes.
pub fn as_text(word: &[u8]) -> &str {
    str::from_utf8(word).unwrap_or("")
}

/// The number that the digits write, where it is at most 4,294,967,295.
pub fn number_of(digits: &[u8]) -> Option<u32> {
    as_text(digits).parse().ok()
}

/// The context that a word names: `-`, `*`, `$` or a number.
pub fn context_of(word: &[u8]) -> Option<CtxRef> {
    match as_text(word) {
        "-" => Some(CtxRef::Null),
        "*" => Some(CtxRef::All),
        "$" => Some(CtxRef::Choose),
        _ => Some(CtxRef::Num(CtxNum(number_of(word)?))),
    }
}

/// The error code of a number.
pub fn code_of(number: &[u8]) -> Option<Code> {
    let number = number_of(number)?;
    for code in CODES.iter() {
        if u32::from(code.number()) == number {
            return Some(*code);
        }
    }
    None
}
