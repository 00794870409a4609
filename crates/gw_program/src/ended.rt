//! How the program ends, and its exit status.

ghost use Rattle.std.specs.Prelude.{◌≡◌};
ghost use Rattle.gw_program.specs.Outcomes.{status_of};

use crate::fault::Fault;

/// How the program ends.
#[derive(Clone, Copy)]
pub enum Ended<'a> {
    /// What the words ask for is done; help and the version too.
    Done,
    /// A fault. Its line stands on standard error, where that took what was printed.
    Failed { fault: Fault<'a>, is_printed: bool },
    /// The words request nothing that there is, which is printed on standard error, where that took it.
    Misused { is_printed: bool },
}

impl Ended<'_> {
    /// The exit status.
    pub fn status(self) -> u8
        ensures { result ≡ status_of self.entry }
    {
        match self {
            Ended::Done => 0,
            Ended::Failed { .. } => 1,
            Ended::Misused { .. } => 2,
        }
    }
}
