//! Which actions own a context number.

ghost use Rattle.std.specs.Prelude.{◌≡◌};
ghost use Rattle.gw_base.specs.Choose.{is_choose};

use crate::command_words::CtxRef;

impl CtxRef {
    /// Whether it is `$`: an action with it owns a context number.
    pub fn is_choose(self) -> bool
        ensures { result ≡ is_choose self }
    {
        matches!(self, CtxRef::Choose)
    }
}
