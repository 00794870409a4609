//! Links by the places of their names in a list.

ghost use Rattle.std.specs.Prelude.{◌≡◌, ◌<◌, ◌≤◌, ◌++◌, filter, map, vec_len, vec_capacity};
ghost use Rattle.gw_ctx.specs.Places.{is_off, joins_others, kept_pair, moved, renumbered};

use gw_base::Flow;

/// A link of two names that stand in a list.
#[derive(Clone, Copy)]
pub(crate) struct Pair {
    /// The place of the name that was first.
    pub(crate) a: usize,
    /// That of the second.
    pub(crate) b: usize,
    /// How media flow between them.
    pub(crate) flow: Flow,
}

/// The pair of these two places goes. It is one pass.
fn drop_pair(pairs: &mut Vec<Pair>, a: usize, b: usize)
    ensures items { pairs.new.items ≡ filter (joins_others a b) pairs.old.items }
    ensures room { (vec_len pairs.new ≤ vec_len pairs.old) × (vec_capacity pairs.new ≡ vec_capacity pairs.old) }
{
    pairs.retain(move |pair| !((pair.a == a && pair.b == b) || (pair.b == a && pair.a == b)));
}

/// The pair takes the place of the one of its two places, and goes last, unless it is both ways. There is room for it.
pub(crate) fn put_pair(pairs: &mut Vec<Pair>, new: Pair)
    requires room { vec_len pairs.old < vec_capacity pairs.old }
    ensures { pairs.new.items ≡ filter (joins_others new.a new.b) pairs.old.items ++ kept_pair new new.flow }
{
    drop_pair(pairs, new.a, new.b);
    match new.flow {
        Flow::Bothway => {}
        Flow::Isolate | Flow::Oneway => {
            if pairs.push(new).is_err() {
                unreachable!();
            }
        }
    }
}

fn moved(last: usize, gone: usize, place: usize) -> usize
    ensures { result ≡ moved last gone place }
{
    if place == last { gone } else { place }
}

/// Whether the pair is about another place than the one that is gone; it follows the names, the last of which has taken
/// the place.
fn stays(pair: &mut Pair, last: usize, gone: usize) -> bool
    ensures stays { result ≡ is_off gone pair.old }
    ensures pair { pair.new ≡ renumbered last gone pair.old }
{
    let stays = !(pair.a == gone || pair.b == gone);
    pair.a = moved(last, gone, pair.a);
    pair.b = moved(last, gone, pair.b);
    stays
}

/// The pairs go that are about the place of a name that is gone, and each of the others follows the names, the last of
/// which has taken the place. It is one pass.
pub(crate) fn drop_at(pairs: &mut Vec<Pair>, last: usize, gone: usize)
    ensures { pairs.new.items ≡ map (renumbered last gone) (filter (is_off gone) pairs.old.items) }
{
    pairs.retain_mut(move |pair| stays(pair, last, gone));
}
