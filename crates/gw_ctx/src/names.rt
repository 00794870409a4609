//! The names that were linked, and their places.

ghost use Rattle.std.specs.Prelude.{◌≡◌, ◌<◌, ◌≤◌, ◌+◌, [], length, bytes_eq, position, slice_index_or, vec_len, vec_capacity};
ghost use Rattle.gw_ctx.specs.Places.{with_name};

use gw_base::TermName;

/// The place of the name, if it is there. The work is that of comparing the names before it.
pub(crate) fn place_of(names: &[TermName], name: &TermName) -> Option<usize>
    ensures { result ≡ position (bytes_eq name.now) names.now }
{
    names.iter().position(|other| *name == *other)
}

/// The place of the name, which goes last where it is not there. There is room for it.
pub(crate) fn place_in(names: &mut Vec<TermName>, name: TermName) -> usize
    requires { vec_len names.old < vec_capacity names.old }
    ensures below { result < length names.new.items }
    ensures there { slice_index_or names.new.items result [] ≡ name }
    ensures names { names.new.items ≡ with_name name names.old.items }
    ensures room { (vec_len names.new ≤ vec_len names.old + 1) × (vec_capacity names.old ≤ vec_capacity names.new) }
{
    if let Some(place) = place_of(names, &name) {
        return place;
    }
    let place = names.len();
    if names.push(name).is_err() {
        unreachable!();
    }
    place
}
