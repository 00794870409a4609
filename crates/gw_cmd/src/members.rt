//! How full a context of the tables is.

ghost use Rattle.std.specs.Prelude.{◌≡◌, length};
ghost use Rattle.gw_table.specs.Maps.{ctx, members_of};
ghost use Rattle.gw_cmd.specs.Effects.{is_full};

use gw_base::{CtxNum, Rules};
use gw_table::Draft;

/// How many members the context has, which may not have come into being.
fn member_count(draft: &Draft, number: CtxNum) -> usize
    ensures { result ≡ length (members_of (ctx draft.now.maps number)) }
{
    match draft.ctx(number) {
        Some(context) => context.members().len(),
        None => 0,
    }
}

/// Whether the context takes no more members.
pub(crate) fn is_full(rules: &Rules, draft: &Draft, number: CtxNum) -> bool
    ensures { result ≡ is_full rules.now number draft.now.maps }
{
    usize::from(rules.members) <= member_count(draft, number)
}
