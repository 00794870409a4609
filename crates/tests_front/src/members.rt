//! The limit of a context, by its own calls.

use gw_base::TermName;
use gw_ctx::{Context, JoinFault};
use std::test::Fail;
use tests_wanted::is_so;

/// The name joins the context of at most three members: whether it does, or the fault.
fn joined(context: &mut Context, text: &[u8]) -> Result<Result<(), JoinFault>, Fail> {
    let name = TermName::read(text)?;
    if context.members().contains(&name) {
        return Err(Fail::new("a name of its own for each"));
    }
    Ok(context.join(name, 3))
}

#[test]
fn a_fourth_name_does_not_join(rt: HostRuntime) -> Result<(), Fail> {
    let mut context = Context::new(rt.alloc());
    for text in [b"T/1", b"T/2", b"T/3"] {
        is_so(joined(&mut context, text)?.is_ok(), "a third member")?;
    }
    let fourth = joined(&mut context, b"T/4")?;
    is_so(matches!(fourth, Err(JoinFault::Full)), "no fourth member")?;
    is_so(context.members().len() == 3, "three members")
}
