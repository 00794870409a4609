//! The order of keys.

ghost use Rattle.std.specs.Prelude.{◌≡◌};
ghost use Rattle.gw_table.specs.KeyLists.{key_cmp};

use gw_base::Key;
use std::cmp::Ordering;

/// Which of two keys comes first: terminations by the bytes of their names, then contexts by number, then `Whole`.
pub fn compare_keys(a: &Key, b: &Key) -> Ordering
    ensures { result ≡ key_cmp a.now b.now }
{
    match (a, b) {
        (Key::Term(a), Key::Term(b)) => a.cmp(b),
        (Key::Term(_), _) => Ordering::Less,
        (_, Key::Term(_)) => Ordering::Greater,
        (Key::Ctx(a), Key::Ctx(b)) => a.0.cmp(&b.0),
        (Key::Ctx(_), Key::Whole) => Ordering::Less,
        (Key::Whole, Key::Ctx(_)) => Ordering::Greater,
        (Key::Whole, Key::Whole) => Ordering::Equal,
    }
}
