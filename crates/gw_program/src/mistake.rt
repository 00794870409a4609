//! What is wrong with the words of the command line.

ghost use Rattle.std.specs.Prelude.{◌≡◌};
ghost use Rattle.gw_program.specs.declared.mistake.Mistake.TheVariants.{NoMemory, Words as OfWords};

use clap::Error;
use std::alloc::AllocError;

/// Why the words ask for no job.
#[derive(Drop)]
pub(crate) enum Mistake<'a> {
    /// What the reader of the command line says, for help and the version too.
    Words(Error),
    /// A controller that is no address.
    Controller(&'a str),
    /// Memory was refused.
    NoMemory,
}

impl From<Error> for Mistake<'_> {
    ghost from_gives = { λ error mistake. mistake ≡ OfWords error };

    fn from(error: Error) -> Self {
        Mistake::Words(error)
    }
}

impl From<AllocError> for Mistake<'_> {
    ghost from_gives = { λ _ mistake. mistake ≡ NoMemory };

    fn from(_e: AllocError) -> Self {
        Mistake::NoMemory
    }
}
