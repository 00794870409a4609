//! What a gateway holds at the time, for an operator.

ghost use Rattle.std.specs.Prelude.{◌≡◌, length};

use crate::gateway::Gateway;
use gw_base::CtxNum;

/// What a gateway holds at the time.
#[derive(Clone, Copy, Debug, PartialEq, Eq)]
pub struct Usage {
    /// How many contexts there are.
    pub contexts: u64,
    /// How many terminations are in one of them.
    pub terminations: u64,
    /// How many replies are kept.
    pub kept: u64,
}

impl Gateway {
    /// How many members the context of a number has, where there is one.
    fn size_of(&self, number: u32) -> Option<usize> {
        let context = self.tables.find_ctx(CtxNum(number))?;
        Some(context.members().len())
    }

    /// How many contexts there are, and how many terminations are in one of them.
    fn sizes(&self) -> (u64, u64) {
        let mut contexts = 0u64;
        let mut terminations = 0u64;
        for before in 0..self.contexts {
            if let Some(size) = self.size_of(before + 1) {
                contexts = contexts.saturating_add(1);
                terminations = terminations.saturating_add(size as u64);
            }
        }
        (contexts, terminations)
    }

    /// What the gateway holds. It takes no memory, and a look-up for each number that a context may have.
    pub fn usage(&self) -> Usage
        ensures { result.kept ≡ length self.now.state.kept.pairs }
    {
        let (contexts, terminations) = self.sizes();
        Usage {
            contexts,
            terminations,
            kept: self.kept.len() as u64,
        }
    }
}
