//! Inline texts compare, and hash, by their bytes.

ghost use Rattle.std.specs.Prelude.{◌≡◌, ℕ, Some, bytes_eq, refl};
ghost use Rattle.std.specs.Ordering.{nat_cmp};
ghost use Rattle.gw_base.specs.Heads.{head_of};
ghost use Rattle.std.specs.Cmp.{partial_equiv_from_equiv};
ghost use Rattle.std.specs.Cmp.Rules.{hashing};
ghost use Rattle.std.specs.Hash as fed;
ghost use Rattle.std.proofs.Common.{rules};
ghost use Rattle.std.specs.Cmp.Lexicographic.{slice_cmp, nat_list_eq_equiv, nat_list_cmp_total, texts_ties, texts_po};

use crate::inline::Inline;
use std::cmp::Ordering;
use std::hash::{Hash, Hasher};

/// Whether two texts are the same, of which the first `seen` bytes are known as numbers.
fn is_same(seen: usize, head: u64, text: &[u8], other_head: u64, other: &[u8]) -> bool
    requires first { head ≡ head_of seen text.now }
    requires second { other_head ≡ head_of seen other.now }
    ensures { result ≡ bytes_eq text.now other.now }
{
    match (text, other) {
        _ if head != other_head || text.len() != other.len() => false,
        (text, other) => text.len() <= seen || text == other,
    }
}

impl<const N: usize> PartialEq for Inline<N> {
    ghost eq = { bytes_eq };

    ghost laws = { partial_equiv_from_equiv nat_list_eq_equiv };

    fn eq(&self, other: &Inline<N>) -> bool {
        let seen = Inline::<N>::seen();
        is_same(
            seen,
            self.head(),
            self.as_bytes(),
            other.head(),
            other.as_bytes(),
        )
    }
}

impl<const N: usize> Eq for Inline<N> {
    ghost laws = { nat_list_eq_equiv };
}

impl<const N: usize> PartialOrd for Inline<N> {
    ghost partial_cmp = { λ a b. Some (slice_cmp nat_cmp a b) };

    ghost laws = { texts_po };

    fn partial_cmp(&self, other: &Inline<N>) -> Option<Ordering> {
        Some(self.cmp(other))
    }
}

/// How two texts stand to one another, of which the first `seen` bytes are known as numbers. These mostly decide, and
/// where neither text has more bytes, what they leave open the lengths decide.
fn compare(seen: usize, head: u64, text: &[u8], other_head: u64, other: &[u8]) -> Ordering
    requires first { head ≡ head_of seen text.now }
    requires second { other_head ≡ head_of seen other.now }
    ensures { result ≡ slice_cmp nat_cmp text.now other.now }
{
    match (text, other) {
        _ if head < other_head => Ordering::Less,
        _ if other_head < head => Ordering::Greater,
        (text, other) if text.len() <= seen && other.len() <= seen => text.len().cmp(&other.len()),
        (text, other) => text.cmp(other),
    }
}

impl<const N: usize> Ord for Inline<N> {
    ghost cmp = { slice_cmp nat_cmp };

    ghost total = { nat_list_cmp_total };

    ghost matches_partial_cmp = { λ a b. refl };

    ghost matches_eq = { texts_ties };

    fn cmp(&self, other: &Inline<N>) -> Ordering {
        let seen = Inline::<N>::seen();
        compare(
            seen,
            self.head(),
            self.as_bytes(),
            other.head(),
            other.as_bytes(),
        )
    }
}

impl<const N: usize> Hash for Inline<N> {
    ghost hash_input = { fed.slice fed.u8 };

    ghost respects_eq = { Prim.search (hashing, rules) };

    fn hash<H: Hasher>(&self, state: &mut H) {
        self.as_bytes().hash(state);
    }
}
