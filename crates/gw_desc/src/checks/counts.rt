//! One of a kind in a list, and two.

ghost use Rattle.std.specs.Prelude.{◌≡◌, ◌≤◌, ℕ, Bool, min};
ghost use Rattle.std.specs.List.{count_by, list_any};
ghost use Rattle.gw_desc.specs.Twice.{has_two};

/// What can be of a kind. Of some kinds a list may have one; of others, which are faults, none. Each kind is a type of
/// its own, so that one search of a list, which is proved once, serves them all.
pub(crate) trait OfKind<K> {
    ghost is_of: { K → Self → Bool };

    /// Whether it is of this kind.
    fn is_of(&self, kind: K) -> bool
        ensures { result ≡ is_of kind self.now };
}

/// Whether one at least of the items is of this kind.
pub(crate) fn has_one<K: Copy, T: OfKind<K>>(items: &[T], kind: K) -> bool
    ensures { result ≡ list_any (T.is_of kind) items.now }
{
    items.iter().any(|item| item.is_of(kind))
}

/// How many items are of this kind: none, one, or two and more.
pub(crate) fn up_to_two<K: Copy, T: OfKind<K>>(items: &[T], kind: K) -> u8
    ensures { result ≡ min 2 (count_by (T.is_of kind) items.now) }
{
    let mut count = 0;
    for item in items {
        if item.is_of(kind) {
            if count == 1 {
                return 2;
            }
            count += 1;
        }
    }
    count
}

/// Whether two at least are. Most lists have one item.
#[tactic(auto, using(crate::proofs::Few::none_of_one))]
pub(crate) fn has_two<K: Copy, T: OfKind<K>>(items: &[T], kind: K) -> bool
    ensures { result ≡ has_two (T.is_of kind) items.now }
{
    if items.len() < 2 {
        return false;
    }
    up_to_two(items, kind) == 2
}
