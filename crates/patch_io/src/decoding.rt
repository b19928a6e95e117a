// Facts are decoded where they stand.
ghost use Rattle.std.specs.Prelude.{◌≡◌, ◌↔◌, ℕ, List, ◌*◌, ◌-◌, ◌<◌, ◌≤◌, get_or, length, map, IsTrue, IfSome, IfErr, OnOk, option_map, slice_get};
ghost use Rattle.fact_codec.specs.declared.limits.TheConstants.{FACT_BYTES};
ghost use Rattle.patch_io.specs.Tables.{AreInOrder};
ghost use Rattle.patch_io.specs.Spelled.{fact_text, Extends, SpellsNone};

use crate::fault::PatchFault;
use crate::table::TableFact;
use fact_codec::FACT_BYTES;
use pur_base::NoMemory;

// The bytes of so many facts, fact by fact.
fn texts_in(bytes: &[u8], count: usize) -> &[[u8; FACT_BYTES]]
    requires { FACT_BYTES * count ≤ length bytes.now }
    ensures len { length result.now ≡ count }
    ensures texts { (k : ℕ) (other : List ℕ) → k < count → get_or result.now k other ≡ fact_text bytes.now k }
{
    let (texts, _) = bytes.as_chunks();
    &texts[..count]
}

// The key of the last fact, if there is one.
fn last_key<F: TableFact>(facts: &[F]) -> Option<u128>
    ensures { result ≡ option_map F.key (slice_get facts.now (length facts.now - 1)) }
{
    match facts.last() {
        Some(last) => Some(last.key()),
        None => None,
    }
}

// Whether the key stands behind the last one, if there is one.
fn may_come(last: Option<u128>, key: u128) -> bool
    ensures { IsTrue result ↔ IfSome last (λ last. last < key) }
{
    match last {
        Some(last) => last < key,
        None => true,
    }
}

/// Decodes facts and puts them behind those that are there.
pub fn read_facts<F: TableFact>(
    bytes: &[u8],
    count: usize,
    facts: &mut Vec<F>,
) -> Result<(), PatchFault>
    requires within { FACT_BYTES * count ≤ length bytes.now }
    requires in_order { AreInOrder F.tag (map F.any facts.old.items) }
    ensures ok { OnOk result (Extends F.tag bytes.now count (map F.any facts.old.items) (map F.any facts.new.items)) }
    ensures fault { IfErr result (λ fault. SpellsNone F.tag bytes.now count (map F.any facts.old.items) fault) }
{
    let mut last = last_key(facts);
    for text in texts_in(bytes, count) {
        let Some(fact) = F::read(text) else {
            return Err(PatchFault::Bad);
        };
        let key = fact.key();
        if !may_come(last, key) {
            return Err(PatchFault::Bad);
        }
        last = Some(key);
        if facts.push(fact).is_err() {
            return Err(PatchFault::Memory(NoMemory));
        }
    }
    Ok(())
}
