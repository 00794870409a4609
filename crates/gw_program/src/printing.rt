//! What is printed on standard error, and how the program ends with it.

ghost use Rattle.std.specs.Prelude.{◌≡◌, ℕ, Bool, List, Option};
ghost use Rattle.clap.specs.Words.{kind_of};
ghost use Rattle.clap.specs.declared.error.kind.ErrorKind.TheVariants.{ValueValidation as NotAValue};
ghost use Rattle.std.specs.IoError.{error_kind};
ghost use Rattle.gw_program.specs.Outcomes.{IsExplainedBy, IsPrinted, IsUnreadable, Says, status_of};
ghost use Rattle.gw_program.specs.Words.{mistake_kind};
ghost use Rattle.gw_program.specs.declared.ended.Ended.{Ended as Ending};

use crate::ended::Ended;
use crate::fault::Fault;
use crate::mistake::Mistake;
use crate::standard_error::StandardError;
use clap::Error;
use clap::error::ErrorKind;
use std::alloc::Global;
use std::io::{self, Write};

/// How a run ended. The line of its fault goes to `err`.
pub(crate) fn printed<'a, E: StandardError>(done: Result<(), Fault<'a>>, err: &mut E) -> Ended<'a>
    ensures { IsPrinted done.entry (E.standing err.old) (E.standing err.new) result }
{
    match done {
        Ok(()) => Ended::Done,
        Err(fault) => {
            let is_printed = err.print_fault(&fault);
            Ended::Failed { fault, is_printed }
        }
    }
}

/// What is said of words that ask for nothing, where their reader says nothing of it.
const MISTAKE: &str = "error: the words ask for nothing that there is\n";

/// Prints a mistake in the words.
fn misused<E: StandardError>(text: &str, err: &mut E) -> Ended<'static>
    ensures { (is_printed : Bool) × (result ≡ Ended.Misused is_printed)
        × Says is_printed (E.standing err.old) (E.standing err.new) }
{
    let said = if text.is_empty() { MISTAKE } else { text };
    let is_printed = err.print(said);
    Ended::Misused { is_printed }
}

/// How the program ends where the reader of the command line says so: help and the version go to `out`, a mistake is
/// said on `err`.
fn answered<W: Write, E: StandardError>(
    alloc: Global,
    error: &Error,
    out: &mut W,
    err: &mut E,
) -> Ended<'static>
    ensures { IsExplainedBy (kind_of error.now) result (W.contents out.old) (W.contents out.new) (E.standing err.old)
        (E.standing err.new) }
{
    match error.kind() {
        ErrorKind::OutOfMemory => printed(Err(Fault::NoMemory), err),
        ErrorKind::DisplayHelp | ErrorKind::DisplayVersion => {
            let _ = write!(out, "{error}");
            Ended::Done
        }
        _ => match format!(in alloc; "{error}") {
            Ok(text) => misused(text.as_str(), err),
            Err(_) => printed(Err(Fault::NoMemory), err),
        },
    }
}

/// What is said of a controller that is no address.
fn not_a_controller<E: StandardError>(alloc: Global, text: &str, err: &mut E) -> Ended<'static>
    ensures { (out : Option (List ℕ)) → IsExplainedBy NotAValue result out out (E.standing err.old)
        (E.standing err.new) }
{
    match format!(in alloc;
        "error: invalid value '{text}' for '--controller <ADDR>': no IP address, and none with a port\n\n\
         For more information, try '--help'.\n"
    ) {
        Ok(said) => misused(said.as_str(), err),
        Err(_) => printed(Err(Fault::NoMemory), err),
    }
}

/// How the program ends on words that ask for no job.
pub(crate) fn explained<W: Write, E: StandardError>(
    alloc: Global,
    mistake: &Mistake<'_>,
    out: &mut W,
    err: &mut E,
) -> Ended<'static>
    ensures { IsExplainedBy (mistake_kind mistake.now) result (W.contents out.old) (W.contents out.new)
        (E.standing err.old) (E.standing err.new) }
{
    match mistake {
        Mistake::Words(error) => answered(alloc, error, out, err),
        Mistake::Controller(text) => not_a_controller(alloc, text, err),
        Mistake::NoMemory => printed(Err(Fault::NoMemory), err),
    }
}

/// What is said of a word that is no text.
const NO_TEXT: &str = "error: a word of the command line is not UTF-8\n";

/// How the program ends where the words could not be read: one of them is no text, or memory was refused to them.
fn refused<E: StandardError>(error: &io::Error, err: &mut E) -> Ended<'static>
    ensures { IsUnreadable (error_kind error.now) (E.standing err.old) (E.standing err.new) result }
{
    if error.kind() == io::ErrorKind::OutOfMemory {
        return printed(Err(Fault::NoMemory), err);
    }
    let is_printed = err.print(NO_TEXT);
    Ended::Misused { is_printed }
}

/// The exit status where the words could not be read: 1 where memory was refused, else 2, and `err` says why.
pub fn unreadable_words<E: StandardError>(error: &io::Error, err: &mut E) -> u8
    ensures { (ended : Ending) × (result ≡ status_of ended)
        × IsUnreadable (error_kind error.now) (E.standing err.old) (E.standing err.new) ended }
{
    refused(error, err).status()
}
