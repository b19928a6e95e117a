// Addresses are read by themselves: nearly all facts are addresses.
ghost use Rattle.std.specs.Prelude.{◌≡◌, ◌++◌, length, Ok, Some, IfOk, IfSome, IfNone};
ghost use Rattle.pur_base.specs.Bytes.{u64};
ghost use Rattle.pur_base.specs.declared.facts.AddressFact.{AddressFact};
ghost use Rattle.pur_base.specs.declared.facts.Target.{Target};
ghost use Rattle.pur_base.specs.declared.facts.AnyFact.TheVariants as any;
ghost use Rattle.fact_codec.specs.declared.limits.TheConstants.{VALUE_BYTES};
ghost use Rattle.fact_codec.specs.Fact.{target_code, Decodes};
ghost use Rattle.fact_codec.specs.Heads.{head_bytes, address_front, FitsHead, IsAddressHead};

use crate::codes::{STORED, ZERO};
use crate::head::Head;
use crate::lawful::is_lawful_address;
use crate::limits::FACT_BYTES;
use crate::reading::BadFact;
use crate::values::address_in;
use pur_base::{AddressFact, u64_in};

/// The first eight bytes of an address that is stored: its tag, its kind and zeros.
const STORED_FRONT: u64 = (3 << 56) + (1 << 48);

/// The first eight bytes of an address that reads as zeros.
const ZERO_FRONT: u64 = (3 << 56) + (2 << 48);

/// The kind of the address that begins with these eight bytes, or `None` where none does.
fn kind_in(front: u64) -> Option<u8>
    ensures some { IfSome result (λ kind. u64 front ≡ address_front kind) }
    ensures complete { (target : Target) → u64 front ≡ address_front (target_code target) → result ≡ Some (target_code target) }
{
    match front {
        STORED_FRONT => Some(STORED),
        ZERO_FRONT => Some(ZERO),
        _ => None,
    }
}

/// The head of an address, and the value behind it, or `None` where the bytes begin as no address does.
fn address_head_in(bytes: &[u8; FACT_BYTES]) -> Option<(Head, &[u8])>
    ensures field { IfSome result (λ it. bytes.now ≡ head_bytes it.0 ++ it.1.now) }
    ensures fits { IfSome result (λ it. FitsHead it.0) }
    ensures head { IfSome result (λ it. IsAddressHead it.0) }
    ensures value { IfSome result (λ it. length it.1.now ≡ VALUE_BYTES) }
    ensures none { IfNone result ((address : AddressFact) → ¬ Decodes bytes.now (any.Address address)) }
{
    let (front, rest) = u64_in(bytes);
    let (id, rest) = u64_in(rest);
    let (second, rest) = u64_in(rest);
    let (number, value) = u64_in(rest);
    let Some(kind) = kind_in(front) else {
        return None;
    };
    let head = Head {
        tag: 3,
        kind,
        name_len: 0,
        zero: 0,
        sectors: 0,
        id,
        second,
        number,
    };
    Some((head, value))
}

/// The address that the bytes spell, or `BadFact` where they spell none, as those of facts of other tables.
pub fn read_address(bytes: &[u8; FACT_BYTES]) -> Result<AddressFact, BadFact>
    // What is read is lawful, and spelled so.
    ensures ok { IfOk result (λ address. Decodes bytes.now (any.Address address)) }
    // What is spelled so is read.
    ensures complete { (address : AddressFact) → Decodes bytes.now (any.Address address) → result ≡ Ok address }
{
    let Some((head, value)) = address_head_in(bytes) else {
        return Err(BadFact);
    };
    let address = address_in(&head, value)?;
    if !is_lawful_address(&address) {
        return Err(BadFact);
    }
    Ok(address)
}
