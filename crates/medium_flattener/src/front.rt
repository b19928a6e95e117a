// What of a medium is flattened next.
ghost use Rattle.std.specs.Prelude.{◌≡◌, ◌+◌, ◌<◌, ◌≤◌, Contains, IfNone, IfSome, length, take};
ghost use Rattle.fact_codec.specs.declared.limits.TheConstants.{NUMBER_LIMIT};
ghost use Rattle.pur_base.specs.declared.facts.ObjectFact.{ObjectFact};
ghost use Rattle.pur_base.specs.declared.limits.TheConstants.{OBJECT_SECTORS, REQUEST_SECTORS};
ghost use Rattle.memory_spec.specs.Memory.{IsSound};
ghost use Rattle.command_spec.specs.Flattening.{HasNoRange, IsMediumOf, front_end};
ghost use Rattle.medium_flattener.specs.Front.{IsFrontOf, facts_of};

use array_memory::Memory;
use medium_table::Range;
use pur_base::{AddressFact, MediumId, Name, REQUEST_SECTORS, Seq, Target};

/// What a place holds before an address is written there.
const BLANK: AddressFact = AddressFact {
    medium: MediumId(0),
    sector: 0,
    target: Target::Zero,
    seq: Seq(0),
};

/// The front of a medium's lowest range, with the addresses that are owed to its sectors in the first places.
#[derive(Drop)]
pub(crate) struct Front {
    pub(crate) range: Range,
    /// Where it ends.
    pub(crate) until: u32,
    pub(crate) given: [AddressFact; REQUEST_SECTORS],
    pub(crate) len: usize,
}

impl Front {
    /// The addresses.
    pub(crate) fn given(&self) -> &[AddressFact]
        requires { self.now.len ≤ length self.now.given }
        ensures { result.now ≡ take self.now.len self.now.given }
    {
        &self.given[..self.len]
    }

    /// How many facts it takes in: the addresses, one that empties the range, and one of what is left of it.
    pub(crate) fn facts(&self) -> u32
        requires { self.now.len ≤ REQUEST_SECTORS }
        ensures { result ≡ facts_of self.now }
    {
        let cut = if u64::from(self.until) < self.range.end {
            2
        } else {
            1
        };
        self.len as u32 + cut
    }
}

/// The medium of the object of that name.
pub(crate) fn medium_of(memory: &Memory, name: &Name) -> MediumId
    requires there { (x : ObjectFact) × Contains memory.now.objects x × (x.name ≡ name.now) }
    ensures of_name { IsMediumOf memory.now.memory name.now result.0 }
    ensures of_object { (x : ObjectFact) × Contains memory.now.objects x × (x.medium.0 ≡ result.0) }
{
    memory.kept();
    match memory.get(name) {
        Some(object) => object.medium,
        None => unreachable!(),
    }
}

/// Where the first sectors of a range end, as many as a request has at most.
fn end_of(range: &Range) -> u32
    requires order { range.now.start < range.now.end }
    requires within { range.now.end ≤ OBJECT_SECTORS }
    ensures { result ≡ front_end range.now }
{
    let most = range.start + REQUEST_SECTORS as u64;
    if most < range.end {
        most as u32
    } else {
        range.end as u32
    }
}

/// What of an object's medium is flattened next, or `None` where it has no range. It takes no memory.
pub(crate) fn front_of(memory: &Memory, medium: MediumId) -> Option<Front>
    requires sound { IsSound memory.now.memory }
    requires of_object { (x : ObjectFact) × Contains memory.now.objects x × (x.medium.0 ≡ medium.0) }
    requires left { memory.now.memory.next.sequence + REQUEST_SECTORS + 2 < NUMBER_LIMIT }
    ensures some { IfSome result (IsFrontOf memory.now.memory medium.0) }
    ensures none { IfNone result (HasNoRange memory.now.memory medium.0) }
{
    let range = memory.lowest(medium)?;
    let until = end_of(&range);
    let mut given = [BLANK; REQUEST_SECTORS];
    let len = memory.owed(&range, u64::from(until), &mut given);
    Some(Front {
        range,
        until,
        given,
        len,
    })
}
