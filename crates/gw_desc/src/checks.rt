//! What is wrong with the descriptors of a command: the first of six codes that applies to the whole list. Nothing here
//! takes memory.

ghost use Rattle.std.specs.Prelude.{◌≡◌, OnOk, IfErr, Some, None};
ghost use Rattle.gw_desc.specs.Checks.{check_code, has_illegal, has_unknown, has_twice, has_content_twice, has_bad, has_past};

mod contents;
mod counts;
mod kinds;
mod limits;
mod names;
mod plain;
mod twice;
mod unfit;

use crate::descriptor::Descriptor;
use gw_base::{Code, Verb};
pub use kinds::same_kept;

/// What is wrong with the descriptors of a command, the first of these that applies to the whole list:
/// `IllegalDescriptor` (one of the seven kinds that the command may not have), `UnknownDescriptor` (another one, or
/// another item of an Audit), `DescriptorTwice` (two of a kind; in a Media two of what stands there once),
/// `PropertyTwice` (a property, an item or a parameter of Services twice), `CommandSyntax` (values or parts that do not
/// fit, or that are missing), `InsufficientResources` (a stream outside 1 to 4, or a text of more than 8,192 bytes).
/// The codes are those of H.248.8; which is for what, and their order, is own to this profile.
///
/// The work is n log n in what was read.
pub fn check(verb: Verb, descriptors: &[Descriptor<'_>]) -> Result<(), Code>
    ensures right { OnOk result (check_code verb descriptors.now ≡ None) }
    ensures wrong { IfErr result (λ code. check_code verb descriptors.now ≡ Some code) }
{
    if plain::is_plain(verb, descriptors) {
        return Ok(());
    }
    check_each(verb, descriptors)
}

/// The same, by a look for each code. Kept out of what most commands need.
#[inline(never)]
#[tactic(auto, unfolding(crate::specs::Checks::check_code))]
fn check_each(verb: Verb, descriptors: &[Descriptor<'_>]) -> Result<(), Code>
    ensures right { OnOk result (check_code verb descriptors.now ≡ None) }
    ensures wrong { IfErr result (λ code. check_code verb descriptors.now ≡ Some code) }
{
    if kinds::has_illegal(verb, descriptors) {
        return Err(Code::IllegalDescriptor);
    }
    if kinds::has_unknown(descriptors) {
        return Err(Code::UnknownDescriptor);
    }
    if twice::has_twice(descriptors) {
        return Err(Code::DescriptorTwice);
    }
    if contents::has_content_twice(descriptors) {
        return Err(Code::PropertyTwice);
    }
    if unfit::has_bad(verb, descriptors) {
        return Err(Code::CommandSyntax);
    }
    if limits::has_past(descriptors) {
        return Err(Code::InsufficientResources);
    }
    Ok(())
}
