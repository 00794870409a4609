//! Error codes of H.248.8, with this profile's texts.

ghost use Rattle.std.specs.Prelude.{◌≡◌};
ghost use Rattle.gw_base.specs.Codes.{number_of, code_text};

/// Why a message, a transaction, an action or a command was refused. The numbers are those of H.248.8; the texts are
/// this profile's own.
#[derive(Clone, Copy, Debug, PartialEq, Eq)]
pub enum Code {
    /// 400: the datagram is no message.
    SyntaxError,
    /// 406: the message is of another version than 1.
    VersionNotSupported,
    /// 411: no context has the number, or it has ended.
    UnknownContext,
    /// 412: no context number was left for `Context=$`.
    NoContextLeft,
    /// 421: the command is not possible there.
    IllegalCombination,
    /// 430: no termination has the name.
    UnknownTermination,
    /// 431: a wildcard matched nothing.
    NoWildcardMatch,
    /// 432: no slot was left for an ephemeral termination.
    NoTerminationLeft,
    /// 433: the termination is in a context already.
    AlreadyInContext,
    /// 434: the context has as many members as it may have.
    ContextFull,
    /// 435: the termination is not in the action's context.
    NotInContext,
    /// 442: a descriptor's values or parts do not fit together.
    CommandSyntax,
    /// 443: the gateway does not execute such commands.
    UnknownCommand,
    /// 444: a descriptor, or an item of an Audit, is unknown.
    UnknownDescriptor,
    /// 447: the command may not have the descriptor.
    IllegalDescriptor,
    /// 448: a descriptor stands twice in a command.
    DescriptorTwice,
    /// 456: a property stands twice in a descriptor.
    PropertyTwice,
    /// 501: the profile leaves the function out, or the message is not executed yet.
    NotImplemented,
    /// 510: a limit of the gateway is reached.
    InsufficientResources,
    /// 533: the reply would be longer than 16,384 bytes.
    ReplyTooLong,
}

impl Code {
    /// The number that stands in an error descriptor.
    pub fn number(self) -> u16
        ensures { result ≡ number_of self }
    {
        match self {
            Code::SyntaxError => 400,
            Code::VersionNotSupported => 406,
            Code::UnknownContext => 411,
            Code::NoContextLeft => 412,
            Code::IllegalCombination => 421,
            Code::UnknownTermination => 430,
            Code::NoWildcardMatch => 431,
            Code::NoTerminationLeft => 432,
            Code::AlreadyInContext => 433,
            Code::ContextFull => 434,
            Code::NotInContext => 435,
            Code::CommandSyntax => 442,
            Code::UnknownCommand => 443,
            Code::UnknownDescriptor => 444,
            Code::IllegalDescriptor => 447,
            Code::DescriptorTwice => 448,
            Code::PropertyTwice => 456,
            Code::NotImplemented => 501,
            Code::InsufficientResources => 510,
            Code::ReplyTooLong => 533,
        }
    }

    /// The text that stands in an error descriptor, without its quotation marks.
    pub fn text(self) -> &'static str
        ensures { result.now ≡ code_text self }
    {
        match self {
            Code::SyntaxError => "Syntax error in message",
            Code::VersionNotSupported => "Version not supported",
            Code::UnknownContext => "Unknown ContextID",
            Code::NoContextLeft => "No ContextIDs available",
            Code::IllegalCombination => "Illegal combination of actions",
            Code::UnknownTermination => "Unknown TerminationID",
            Code::NoWildcardMatch => "No TerminationID matched a wildcard",
            Code::NoTerminationLeft => "No TerminationID available",
            Code::AlreadyInContext => "TerminationID already in a context",
            Code::ContextFull => "Too many terminations in a context",
            Code::NotInContext => "TerminationID not in the specified context",
            Code::CommandSyntax => "Syntax error in command",
            Code::UnknownCommand => "Unsupported or unknown command",
            Code::UnknownDescriptor => "Unsupported or unknown descriptor",
            Code::IllegalDescriptor => "Descriptor not legal in this command",
            Code::DescriptorTwice => "Descriptor appears twice in a command",
            Code::PropertyTwice => "Property appears twice in a descriptor",
            Code::NotImplemented => "Not implemented",
            Code::InsufficientResources => "Insufficient resources",
            Code::ReplyTooLong => "Response exceeds maximum transport PDU size",
        }
    }
}
