//! The error descriptor (RFC 3525, section 7.1.19).

ghost use Rattle.std.specs.Prelude.{◌≡◌};
ghost use Rattle.gw_reply.specs.Errors.{error_text};

use crate::wire::Written;
use gw_base::Code;
use std::alloc::AllocError;

/// The error descriptor of a code, whole, as a reply has it: `Error=421{"Illegal combination of actions"}` (RFC 3525,
/// section 7.1.19 and Annex B.2, errorDescriptor). The number is `Code::number`, and the text `Code::text`. It is a
/// look-up: nothing is formatted.
#[tactic(auto, using(crate::proofs::Digits::three_digits))]
pub(crate) fn error_descriptor(code: Code) -> &'static str
    ensures { result.now ≡ error_text code }
{
    match code {
        Code::SyntaxError => "Error=400{\"Syntax error in message\"}",
        Code::VersionNotSupported => "Error=406{\"Version not supported\"}",
        Code::UnknownContext => "Error=411{\"Unknown ContextID\"}",
        Code::NoContextLeft => "Error=412{\"No ContextIDs available\"}",
        Code::IllegalCombination => "Error=421{\"Illegal combination of actions\"}",
        Code::UnknownTermination => "Error=430{\"Unknown TerminationID\"}",
        Code::NoWildcardMatch => "Error=431{\"No TerminationID matched a wildcard\"}",
        Code::NoTerminationLeft => "Error=432{\"No TerminationID available\"}",
        Code::AlreadyInContext => "Error=433{\"TerminationID already in a context\"}",
        Code::ContextFull => "Error=434{\"Too many terminations in a context\"}",
        Code::NotInContext => "Error=435{\"TerminationID not in the specified context\"}",
        Code::CommandSyntax => "Error=442{\"Syntax error in command\"}",
        Code::UnknownCommand => "Error=443{\"Unsupported or unknown command\"}",
        Code::UnknownDescriptor => "Error=444{\"Unsupported or unknown descriptor\"}",
        Code::IllegalDescriptor => "Error=447{\"Descriptor not legal in this command\"}",
        Code::DescriptorTwice => "Error=448{\"Descriptor appears twice in a command\"}",
        Code::PropertyTwice => "Error=456{\"Property appears twice in a descriptor\"}",
        Code::NotImplemented => "Error=501{\"Not implemented\"}",
        Code::InsufficientResources => "Error=510{\"Insufficient resources\"}",
        Code::ReplyTooLong => "Error=533{\"Response exceeds maximum transport PDU size\"}",
    }
}

impl Written for Code {
    ghost text = { error_text };

    fn write_to(&self, out: &mut Vec<u8>) -> Result<(), AllocError> {
        out.extend_from_slice(error_descriptor(*self).as_bytes())
    }
}
