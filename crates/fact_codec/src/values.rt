ghost use Rattle.std.specs.Prelude.{◌≡◌, ◌<◌, ◌≤◌, ◌^◌, ◌↔◌, ℕ, List, length, Ok, IsTrue, IfOk};
ghost use Rattle.pur_base.specs.Bytes.{zeros};
ghost use Rattle.pur_base.specs.declared.limits.TheConstants.{NAME_BYTES};
ghost use Rattle.pur_base.specs.declared.facts.ObjectFact.{ObjectFact};
ghost use Rattle.pur_base.specs.declared.facts.MediumFact.{MediumFact};
ghost use Rattle.pur_base.specs.declared.facts.AddressFact.{AddressFact};
ghost use Rattle.pur_base.specs.declared.facts.SegmentFact.{SegmentFact};
ghost use Rattle.pur_base.specs.declared.facts.ElisionFact.{ElisionFact};
ghost use Rattle.pur_base.specs.declared.facts.AnyFact.TheVariants as any;
ghost use Rattle.fact_codec.specs.declared.limits.TheConstants.{VALUE_BYTES};
ghost use Rattle.fact_codec.specs.Heads.{HasAddress};
ghost use Rattle.fact_codec.specs.Values.{UNUSED_BYTES, IsNameIn, IsValueOf, IsSpelled};

use crate::codes::{STORED, ZERO, object_kind};
use crate::head::Head;
use crate::lawful::is_next;
use crate::limits::VALUE_BYTES;
use crate::reading::BadFact;
use pur_base::{
    AddressFact, ElisionFact, Location, MediumFact, MediumId, NAME_BYTES, Name, OBJECT_SECTORS,
    ObjectFact, ObjectId, SEGMENT_SECTORS, SegmentFact, SegmentId, Seq, Table, Target, places_in,
    u16_in, u32_in, u64_in,
};

/// The bytes of a value that no field uses.
const BLANK: [u8; VALUE_BYTES] = [0; VALUE_BYTES];

/// Whether bytes that no field uses are zero: one comparison of them all.
fn are_blank(bytes: &[u8]) -> bool
    requires { length bytes.now ≤ VALUE_BYTES }
    ensures { IsTrue result ↔ (bytes.now ≡ zeros (length bytes.now)) }
{
    let blank = &BLANK[..bytes.len()];
    bytes == blank
}

/// The name of that length with zeros behind it, or `BadFact` where it is no name or something stands behind it.
fn name_in(len: u8, bytes: &[u8]) -> Result<Name, BadFact>
    requires { length bytes.now ≡ NAME_BYTES }
    ensures ok { IfOk result (λ name. IsNameIn len bytes.now name) }
    ensures complete { (name : List ℕ) → IsNameIn len bytes.now name → result ≡ Ok name }
{
    let len = usize::from(len);
    if len > NAME_BYTES {
        return Err(BadFact);
    }
    let (text, behind) = bytes.split_at(len);
    if !are_blank(behind) {
        return Err(BadFact);
    }
    match Name::read(text) {
        Ok(name) => Ok(name),
        Err(_) => Err(BadFact),
    }
}

/// The object of the head and the value, or `BadFact` where they give none. What `is_headed` judges isn't judged here, nor below.
pub fn object_in(head: &Head, value: &[u8]) -> Result<ObjectFact, BadFact>
    requires { length value.now ≡ VALUE_BYTES }
    ensures ok { IfOk result (λ object. IsValueOf value.now (any.Object object)) }
    ensures complete { (object : ObjectFact) → IsSpelled head.now value.now (any.Object object) → result ≡ Ok object }
{
    let Some(kind) = object_kind(head.kind) else {
        return Err(BadFact);
    };
    let (medium, rest) = u64_in(value);
    let name = name_in(head.name_len, rest)?;
    Ok(ObjectFact {
        object: ObjectId(head.id),
        kind,
        sectors: head.sectors,
        medium: MediumId(medium),
        name,
        seq: Seq(head.number),
    })
}

/// The range of the head and the value.
pub fn medium_in(head: &Head, value: &[u8]) -> Result<MediumFact, BadFact>
    requires second { head.now.second < 2 ^ 64 }
    requires value { length value.now ≡ VALUE_BYTES }
    ensures ok { IfOk result (λ range. IsValueOf value.now (any.Medium range)) }
    ensures complete { (range : MediumFact) → IsSpelled head.now value.now (any.Medium range) → result ≡ Ok range }
{
    let (end, rest) = u64_in(value);
    let (target, rest) = u64_in(rest);
    let (target_start, rest) = u64_in(rest);
    if !are_blank(rest) {
        return Err(BadFact);
    }
    Ok(MediumFact {
        medium: MediumId(head.id),
        start: head.second,
        end,
        target: MediumId(target),
        target_start,
        seq: Seq(head.number),
    })
}

/// Whether the bytes of an address that no field uses are zero: compared as numbers, since nearly all facts are addresses.
fn are_unused(bytes: &[u8]) -> bool
    requires { length bytes.now ≡ UNUSED_BYTES }
    ensures { IsTrue result ↔ (bytes.now ≡ zeros UNUSED_BYTES) }
{
    let (first, rest) = u16_in(bytes);
    let (second, rest) = u32_in(rest);
    let (third, rest) = u64_in(rest);
    let (last, _) = u64_in(rest);
    first == 0 && second == 0 && third == 0 && last == 0
}

/// The address of the head and the value. Where its sector stands is judged here.
pub fn address_in(head: &Head, value: &[u8]) -> Result<AddressFact, BadFact>
    requires { length value.now ≡ VALUE_BYTES }
    ensures ok { IfOk result (λ address. IsValueOf value.now (any.Address address)) }
    ensures head { IfOk result (HasAddress head.now) }
    ensures complete { (address : AddressFact) → IsSpelled head.now value.now (any.Address address) → result ≡ Ok address }
{
    let (segment, rest) = u64_in(value);
    let (index, rest) = u16_in(rest);
    if head.second >= OBJECT_SECTORS || !are_unused(rest) {
        return Err(BadFact);
    }
    let target = match head.kind {
        STORED => {
            if !is_next(segment) || index >= SEGMENT_SECTORS {
                return Err(BadFact);
            }
            Target::Stored(Location {
                segment: SegmentId(segment),
                index,
            })
        }
        ZERO => {
            if segment != 0 || index != 0 {
                return Err(BadFact);
            }
            Target::Zero
        }
        _ => return Err(BadFact),
    };
    Ok(AddressFact {
        medium: MediumId(head.id),
        sector: head.second as u32,
        target,
        seq: Seq(head.number),
    })
}

/// The segment of the head and the value.
pub fn segment_in(head: &Head, value: &[u8]) -> Result<SegmentFact, BadFact>
    requires { length value.now ≡ VALUE_BYTES }
    ensures ok { IfOk result (λ segment. IsValueOf value.now (any.Segment segment)) }
    ensures complete { (segment : SegmentFact) → IsSpelled head.now value.now (any.Segment segment) → result ≡ Ok segment }
{
    let (places, rest) = places_in(value);
    let (placed, rest) = u16_in(rest);
    if !are_blank(rest) {
        return Err(BadFact);
    }
    Ok(SegmentFact {
        segment: SegmentId(head.id),
        places,
        placed,
        seq: Seq(head.number),
    })
}

/// The elision of the head and the value.
pub fn elision_in(head: &Head, value: &[u8]) -> Result<ElisionFact, BadFact>
    requires { length value.now ≡ VALUE_BYTES }
    ensures ok { IfOk result (λ elision. IsValueOf value.now (any.Elision elision)) }
    ensures complete { (elision : ElisionFact) → IsSpelled head.now value.now (any.Elision elision) → result ≡ Ok elision }
{
    let Ok(tag) = u8::try_from(head.second) else {
        return Err(BadFact);
    };
    let Some(table) = Table::from_tag(tag) else {
        return Err(BadFact);
    };
    let (last, rest) = u64_in(value);
    if !are_blank(rest) {
        return Err(BadFact);
    }
    Ok(ElisionFact {
        first: head.id,
        table,
        last,
        seq: Seq(head.number),
    })
}
