ghost use Rattle.std.specs.Prelude.{◌≡◌, ℕ, false, length, is_some, if◌then◌else◌, Some, None};
ghost use Rattle.order.specs.Least.{Least, LeastCandidate, least_of, place_of, TiesShareName, DifferentNames, OnlyChoice};

use super::key::Key;

// Of a key met at `place` and the best so far, the place that stays: the new one only if it goes strictly first.
fn sooner<K: Key>(key: &K, place: usize, best: &K, best_place: usize) -> usize
    ensures { result ≡ (if K.before key.now best.now then place else best_place) }
{
    if key.goes_before(best) {
        place
    } else {
        best_place
    }
}

// The place of the least key, the first in line among equals; none exactly if there are no keys.
pub fn least<K: Key>(keys: &[K]) -> Option<usize>
    ensures { Least K.before keys.now result }
{
    if keys.is_empty() {
        return None;
    }
    let mut best = 0;
    // By places, since a place is the answer; the first key stands already.
    for place in 1..keys.len() {
        best = sooner(&keys[place], place, &keys[best], best);
    }
    Some(best)
}

// A place, if a candidate stands there.
fn if_candidate<K>(key: &Option<K>, place: usize) -> Option<usize>
    ensures { result ≡ (if is_some key.now then Some place else None) }
{
    key.is_some().then_some(place)
}

// The place of the least among the entries that are candidates: as a relation, as equal to what the definition picks,
// and, under any naming by which keys that tie share a name and different candidates have different names, as the only possible choice.
pub fn least_candidate<K: Key>(keys: &[Option<K>]) -> Option<usize>
    ensures chosen { LeastCandidate K.before keys.now result }
    ensures is { result ≡ place_of (least_of K.before keys.now) }
    ensures only { (name : K → ℕ) → TiesShareName K.before name → DifferentNames name keys.now → OnlyChoice K.before keys.now result }
{
    let place = least(keys)?;
    if_candidate(&keys[place], place)
}
