ghost use Rattle.std.specs.Prelude.{◌≡◌, ◌↔◌, Ok, IsErr, IfOk};
ghost use Rattle.segment_codec.specs.Header.{Decodes};
ghost use Rattle.segment_codec.specs.declared.header.Header.{Header};

use crate::fields::Fields;
use crate::header::{Header, is_lawful};
use crate::kind::SegmentKind;
use pur_base::{Sector, SegmentId};

/// The sector spells no header.
#[derive(Clone, Copy, PartialEq, Eq)]
pub struct BadHeader;

/// The header that the sector spells, or `BadHeader` where it spells none.
pub fn read_header(sector: &Sector) -> Result<Header, BadHeader>
    // What is read is lawful, and spelled so.
    ensures ok { IfOk result (λ header. Decodes sector.now header) }
    // What is spelled so is read.
    ensures complete { (header : Header) → Decodes sector.now header → result ≡ Ok header }
    ensures err { IsErr result ↔ ((header : Header) → ¬ Decodes sector.now header) }
{
    let fields = Fields::of(sector);
    if !fields.is_frame() {
        return Err(BadHeader);
    }
    let Some(kind) = SegmentKind::from_code(fields.code) else {
        return Err(BadHeader);
    };
    let header = Header {
        segment: SegmentId(fields.segment),
        generation: fields.generation,
        kind,
        shard: fields.shard,
        placed: fields.placed,
        tag: fields.tag,
        part: fields.part,
        parts: fields.parts,
        facts: fields.facts,
        places: fields.places,
    };
    if !is_lawful(&header) {
        return Err(BadHeader);
    }
    Ok(header)
}
