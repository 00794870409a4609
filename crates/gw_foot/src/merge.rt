//! Whether two requests may claim the same entry.

ghost use Rattle.std.specs.Prelude.{◌≡◌};
ghost use Rattle.std.specs.List.{list_any};
ghost use Rattle.gw_base.specs.Keys.{has, same_key};
ghost use Rattle.gw_base.specs.declared.key.Key.TheVariants.{Whole};
ghost use Rattle.gw_table.specs.KeyLists.{IsInOrder};
ghost use Rattle.gw_foot.specs.Meets.{meets};

use gw_base::Key;
use gw_table::{Keys, compare_keys};
use std::cmp::Ordering;

/// Whether the key stands for every entry.
fn is_whole(key: &Key) -> bool
    ensures { result ≡ same_key Whole key.now }
{
    matches!(key, Key::Whole)
}

/// Whether `Whole` is among keys in order, of which it would be the last.
fn has_whole(keys: &[Key]) -> bool
    requires { IsInOrder keys.now }
    ensures { result ≡ has keys.now Whole }
{
    match keys.last() {
        Some(last) => is_whole(last),
        None => false,
    }
}

/// Whether a key is in both lists, which are in order. The work is one pass over both.
fn share_a_key(a: &[Key], b: &[Key]) -> bool
    requires a { IsInOrder a.now }
    requires b { IsInOrder b.now }
    ensures { result ≡ list_any (has a.now) b.now }
{
    let mut left = a;
    let mut right = b;
    while let ([x, later_left @ ..], [y, later_right @ ..]) = (left, right) {
        match compare_keys(x, y) {
            Ordering::Less => left = later_left,
            Ordering::Greater => right = later_right,
            Ordering::Equal => return true,
        }
    }
    false
}

/// Whether keys meet: a key is in both, or `Whole` in either. The work is one pass over both.
pub fn meets(a: &Keys, b: &Keys) -> bool
    ensures { result ≡ meets a.now b.now }
{
    let a = a.list();
    let b = b.list();
    has_whole(a) || has_whole(b) || share_a_key(a, b)
}
