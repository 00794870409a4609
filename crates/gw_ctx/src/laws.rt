//! What follows from the definitions alone.

ghost use Rattle.std.specs.Prelude.{◌≡◌, ◌≤◌, ℕ, Bool, true, false, List, bytes_eq};
ghost use Rattle.gw_base.specs.NameLists.{is_in};
ghost use Rattle.gw_base.specs.declared.context_words.Link.{Link};
ghost use Rattle.gw_ctx.specs.Contexts.{ContextRecord, new_context, joined, left, prioritized, with_emergency, linked};
ghost use Rattle.gw_ctx.specs.Fitting.{priority_max, IsFit};

/// The properties of a new context are fit, and stay so: whoever joins or leaves, whichever priority that there is is
/// set, and whichever members are linked that differ.
pub fn contexts_stay_fit()
    ensures new { IsFit new_context }
    ensures joined { (name : List ℕ) (c : ContextRecord) → IsFit c → IsFit (joined name c) }
    ensures left { (name : List ℕ) (c : ContextRecord) → IsFit c → IsFit (left name c) }
    ensures priority { (priority : ℕ) (c : ContextRecord) → priority ≤ priority_max → IsFit c → IsFit (prioritized priority c) }
    ensures emergency { (mark : Bool) (c : ContextRecord) → IsFit c → IsFit (with_emergency mark c) }
    ensures linked { (link : Link) (c : ContextRecord) → is_in link.a c.members ≡ true → is_in link.b c.members ≡ true → bytes_eq link.a link.b ≡ false → IsFit c → IsFit (linked link c) }
{}
