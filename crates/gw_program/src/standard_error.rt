//! Standard error: what is printed there, each text once and whole.

ghost use Rattle.std.specs.Prelude.{◌++◌, codes};
ghost use Rattle.gw_program.specs.Faults.{line_of};
ghost use Rattle.gw_program.specs.Standings.{Standing, Prints, unknown};

use crate::fault::Fault;
use std::io::Write;

/// Standard error as the program sees it: a stream, or what stands in for one.
pub trait StandardError {
    /// What it holds, and which texts were handed to it so far, each where it is known.
    ghost standing: { Self → Standing } = { λ _. unknown };

    /// Hands the line of a fault over, to be written whole. Whether it was; where it was not, a part of it may be.
    fn print_fault(&mut self, fault: &Fault<'_>) -> bool
        ensures { Prints (line_of fault.now ++ codes "\n") result (standing self.old) (standing self.new) };

    /// Hands a text over, to be written whole. Whether it was; where it was not, a part of it may be.
    fn print(&mut self, text: &str) -> bool
        ensures { Prints text.now result (standing self.old) (standing self.new) };
}

/// A stream as standard error. No contract says which writes were tried on a stream, so only what it holds is known.
#[derive(Drop)]
pub struct Stream<W> {
    /// Where lines and texts are written.
    pub stream: W,
}

impl<W: Write> StandardError for Stream<W> {
    ghost use Rattle.std.specs.Prelude.{None};

    ghost standing = { λ s. record { contents = W.contents s.stream; handed = None } };

    fn print_fault(&mut self, fault: &Fault<'_>) -> bool {
        writeln!(self.stream, "{fault}").is_ok()
    }

    fn print(&mut self, text: &str) -> bool {
        self.stream.write_all(text.as_bytes()).is_ok()
    }
}
