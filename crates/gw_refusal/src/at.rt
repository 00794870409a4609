//! The context of an action while its commands are executed.

ghost use Rattle.std.specs.Prelude.{◌≡◌};
ghost use Rattle.gw_refusal.specs.Places.{place_at, made, is_null, is_unmade, is_each};

use gw_base::CtxNum;

/// The context that an action's commands are for (RFC 3525, section 8.1.2).
#[derive(Clone, Copy)]
pub enum At {
    /// The null context, `-`.
    Null,
    /// A context that was there when the action began, or has been made by it.
    Live(CtxNum),
    /// An owned number whose context has not come into being.
    Unmade(CtxNum),
    /// One of the contexts of an action with `*`.
    Each(CtxNum),
}

impl At {
    /// The place of a termination that is in it: a context, or none for the null context.
    pub fn place(self) -> Option<CtxNum>
        ensures { result ≡ place_at self }
    {
        match self {
            At::Null => None,
            At::Live(number) | At::Unmade(number) | At::Each(number) => Some(number),
        }
    }

    /// The same context, made.
    pub fn made(self) -> At
        ensures { result ≡ made self }
    {
        match self {
            At::Unmade(number) => At::Live(number),
            at => at,
        }
    }

    /// Whether it is the null context.
    pub(crate) fn is_null(self) -> bool
        ensures { result ≡ is_null self }
    {
        matches!(self, At::Null)
    }

    /// Whether the context has not come into being.
    pub fn is_unmade(self) -> bool
        ensures { result ≡ is_unmade self }
    {
        matches!(self, At::Unmade(_))
    }

    /// Whether it is one of the contexts of an action with `*`.
    pub fn is_each(self) -> bool
        ensures { result ≡ is_each self }
    {
        matches!(self, At::Each(_))
    }
}
