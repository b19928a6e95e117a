ghost use Rattle.std.specs.Prelude.{◌≡◌, ℕ, ◌<◌, ◌≤◌, length, slice_index_or, IsTrue, ◌↔◌, true, false};
ghost use Rattle.pur_base.specs.Keys.{id_of, key_of};
ghost use Rattle.pyramid.specs.Layers.{IsOrdered, IsBefore, newest_of};

use pur_base::Fact;

/// What an id counts in a key.
const KEY_BASE: u128 = 1 << 64;

/// The key of an id and a second number.
pub fn key_of(id: u64, second: u64) -> u128
    ensures { result ≡ key_of id second }
{
    u128::from(id) * KEY_BASE + u128::from(second)
}

/// The id of a key.
pub fn id_of(key: u128) -> u64
    ensures { result ≡ id_of key }
{
    (key / KEY_BASE) as u64
}

/// The newest of the facts of this key.
pub fn newest_in<F: Fact>(facts: &[F], key: u128) -> Option<F>
    requires { IsOrdered F.key F.number facts.now }
    ensures { result ≡ newest_of F.key F.number key facts.now }
{
    let end = end_of(facts, key);
    if end == 0 {
        return None;
    }
    let fact = facts[end - 1];
    if fact.key() == key { Some(fact) } else { None }
}

/// Where the facts of the keys up to this one end.
pub fn end_of<F: Fact>(facts: &[F], key: u128) -> usize
    requires { IsOrdered F.key F.number facts.now }
    ensures within { result ≤ length facts.now }
    ensures below { (i : ℕ) (d : F) → i < result → F.key (slice_index_or facts.now i d) ≤ key }
    ensures above { (i : ℕ) (d : F) → result ≤ i → i < length facts.now → key < F.key (slice_index_or facts.now i d) }
{
    let mut low = 0;
    let mut high = facts.len();
    while low < high {
        let middle = low + (high - low) / 2;
        if facts[middle].key() <= key {
            low = middle + 1;
        } else {
            high = middle;
        }
    }
    low
}

/// Where the facts of this key and greater ones begin.
pub fn start_of<F: Fact>(facts: &[F], key: u128) -> usize
    requires { IsOrdered F.key F.number facts.now }
    ensures within { result ≤ length facts.now }
    ensures below { (i : ℕ) (d : F) → i < result → F.key (slice_index_or facts.now i d) < key }
    ensures above { (i : ℕ) (d : F) → result ≤ i → i < length facts.now → key ≤ F.key (slice_index_or facts.now i d) }
{
    if key == 0 { 0 } else { end_of(facts, key - 1) }
}

/// Where the fact belongs: those in front are before it, and the others aren't.
pub fn place_of<F: Fact>(facts: &[F], fact: &F) -> usize
    requires { IsOrdered F.key F.number facts.now }
    ensures within { result ≤ length facts.now }
    ensures below { (i : ℕ) (d : F) → i < result → IsBefore F.key F.number (slice_index_or facts.now i d) fact.now }
    ensures above { (i : ℕ) (d : F) → result ≤ i → i < length facts.now → IsBefore F.key F.number (slice_index_or facts.now i d) fact.now → ⊥ }
{
    let mut low = 0;
    let mut high = facts.len();
    while low < high {
        let middle = low + (high - low) / 2;
        if is_before(&facts[middle], fact) {
            low = middle + 1;
        } else {
            high = middle;
        }
    }
    low
}

/// Whether the first fact stands in front of the second: by key, and of one key by number.
pub fn is_before<F: Fact>(a: &F, b: &F) -> bool
    ensures { IsTrue result ↔ IsBefore F.key F.number a.now b.now }
{
    a.key() < b.key() || (a.key() == b.key() && a.seq().0 < b.seq().0)
}

/// Whether a fact of this key and number stands there.
pub fn is_at<F: Fact>(facts: &[F], at: usize, fact: &F) -> bool
    ensures there { result ≡ true → (at < length facts.now) × (F.number (slice_index_or facts.now at fact.now) ≡ F.number fact.now) }
    ensures absent { result ≡ false → (d : F) → at < length facts.now → F.key (slice_index_or facts.now at d) ≡ F.key fact.now → F.number (slice_index_or facts.now at d) ≡ F.number fact.now → ⊥ }
{
    if at < facts.len() {
        let there = &facts[at];
        there.key() == fact.key() && there.seq().0 == fact.seq().0
    } else {
        false
    }
}
