//! A name twice in a list of properties, in any case: pair by pair in a short list, by sorting places in a long one.

ghost use Rattle.std.specs.Prelude.{◌≡◌, ◌≤◌, ◌<◌, ◌↔◌, ℕ, [], IsTrue, length, slice_index, slice_index_or, EachIndex};
ghost use Rattle.std.specs.Cmp.Lexicographic.{slice_cmp};
ghost use Rattle.std.specs.Ordering.{nat_cmp};
ghost use Rattle.std.specs.List.{list_any};
ghost use Rattle.std.specs.List.Sorted.{IsPermutation};
ghost use Rattle.gw_text.specs.Tokens.{is_same_word};
ghost use Rattle.gw_desc.specs.Checks.{names_of};
ghost use Rattle.gw_desc.specs.Twice.{has_same, has_name_twice, HasDouble, folded};

use crate::descriptor::Property;
use gw_base::Span;
use std::cmp::Ordering;

/// Up to so many names are compared pair by pair.
const FEW: usize = 32;

/// The most names whose places there is room for: more than a datagram has room for.
const MOST: usize = 16384;

/// The bytes of the name at a place, and none past the end.
fn bytes_at<'a>(properties: &'a [Property<Span<'_>>], place: usize) -> &'a [u8]
    ensures { result.now ≡ slice_index_or (names_of properties.now) place [] }
{
    match properties.get(place) {
        Some(property) => property.name.as_bytes(),
        None => &[],
    }
}

/// How two names stand in the order of their bytes in lower case.
fn folded_order(a: &[u8], b: &[u8]) -> Ordering
    ensures { result ≡ slice_cmp nat_cmp (folded a.now) (folded b.now) }
{
    let lower_a = a.iter().map(u8::to_ascii_lowercase);
    let lower_b = b.iter().map(u8::to_ascii_lowercase);
    lower_a.cmp(lower_b)
}

/// Whether the name is among those of the properties.
fn has_name(name: &[u8], properties: &[Property<Span<'_>>]) -> bool
    ensures { result ≡ list_any (is_same_word name.now) (names_of properties.now) }
{
    for property in properties {
        if name.eq_ignore_ascii_case(property.name.as_bytes()) {
            return true;
        }
    }
    false
}

/// Whether two names are the same, by comparing each pair.
fn is_twice_by_pairs(properties: &[Property<Span<'_>>]) -> bool
    ensures { result ≡ has_same is_same_word (names_of properties.now) }
{
    for (i, property) in properties.iter().enumerate() {
        if has_name(property.name.as_bytes(), &properties[i + 1..]) {
            return true;
        }
    }
    false
}

/// Writes each place's own number there.
fn number(places: &mut [u16])
    requires { length places.old ≤ 16384 }
    ensures { EachIndex places.new (λ k. slice_index places.new k ≡ k) }
{
    for (place, slot) in places.iter_mut().enumerate() {
        *slot = place as u16;
    }
}

/// Whether two names are the same, by sorting their places and comparing neighbours.
#[inline(never)]
fn is_twice_by_sorting(properties: &[Property<Span<'_>>]) -> bool
    requires { length properties.now ≤ 16384 }
    ensures { IsTrue result ↔ HasDouble (names_of properties.now) }
{
    let mut room = [0; MOST];
    let places = &mut room[..properties.len()];
    number(places);
    places.sort_unstable_by(|a, b| folded_order(
        bytes_at(properties, *a as usize),
        bytes_at(properties, *b as usize),
    ));
    for k in 1..places.len() {
        let before = bytes_at(properties, places[k - 1] as usize);
        if before.eq_ignore_ascii_case(bytes_at(properties, places[k] as usize)) {
            return true;
        }
    }
    false
}

/// Whether two names are the same.
#[tactic(auto, using(crate::proofs::Counting::double_decides), unfolding(crate::specs::Twice::has_name_twice))]
pub(crate) fn has_name_twice(properties: &[Property<Span<'_>>]) -> bool
    ensures { result ≡ has_name_twice (names_of properties.now) }
{
    if FEW < properties.len() && properties.len() <= MOST {
        is_twice_by_sorting(properties)
    } else {
        is_twice_by_pairs(properties)
    }
}
