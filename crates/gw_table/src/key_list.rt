//! Lists of keys in order.

ghost use Rattle.std.specs.Prelude.{◌≡◌, length};
ghost use Rattle.std.specs.Bool.{OnTrue};
ghost use Rattle.gw_base.specs.declared.key.Key.{Key};
ghost use Rattle.gw_base.specs.Keys.{has};
ghost use Rattle.gw_table.specs.KeyLists.{IsInOrder, IsListOf};

use crate::key_order::compare_keys;
use gw_base::Key;

/// Puts `Whole` behind the others where it stands first, as in a list of every key of the tables.
fn move_whole_back(keys: &mut [Key])
    ensures same { (k : Key) → has keys.new k ≡ has keys.old k }
    ensures as_many { length keys.new ≡ length keys.old }
{
    if matches!(keys.first(), Some(Key::Whole)) {
        keys.rotate_left(1);
    }
}

/// Whether each key comes before the next.
fn are_in_order(keys: &[Key]) -> bool
    ensures { OnTrue result (IsInOrder keys.now) }
{
    keys.is_sorted_by(|a, b| compare_keys(a, b).is_lt())
}

/// Sorts keys, and leaves each there once.
fn sort(keys: &mut Vec<Key>)
    ensures { IsListOf keys.new.items keys.old.items }
{
    keys.sort_unstable_by(|a, b| compare_keys(a, b));
    keys.dedup();
}

/// Puts keys in rising order, and leaves each there once, without memory. Where they are in order already, but for
/// `Whole` that may stand first, the work is linear; else it is n log n.
pub fn put_in_order(keys: &mut Vec<Key>)
    ensures { IsListOf keys.new.items keys.old.items }
{
    move_whole_back(keys.as_mut_slice());
    if !are_in_order(keys) {
        sort(keys);
    }
}
