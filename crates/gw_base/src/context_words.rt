//! The words of a context's topology: which of its terminations receive media from which.

use crate::name::TermName;

/// How media flow between two terminations of a context (RFC 3525, section 7.1.18, and Annex B.2, `topologyDirection`).
#[derive(Clone, Copy, Debug, PartialEq, Eq)]
pub enum Flow {
    /// `Bothway`: each receives from the other, as where nothing is said.
    Bothway,
    /// `Isolate`: neither receives from the other.
    Isolate,
    /// `Oneway`: the second receives from the first.
    Oneway,
}

/// How media flow between two terminations, which are named (RFC 3525, Annex B.2, `topologyTriple`).
#[derive(Clone, Copy, PartialEq, Eq)]
pub struct Link {
    /// The first that was named.
    pub a: TermName,
    /// The second.
    pub b: TermName,
    /// How media flow between them.
    pub flow: Flow,
}
