ghost use Rattle.std.specs.Prelude.{◌≡◌, ◌≢◌, ◌<◌, ◌^◌, ◌↔◌, IsTrue, IfSome, IfNone, All, Contains};
ghost use Rattle.pur_base.specs.Facts.{Facts, address_key, object_key, segment_key, never};
ghost use Rattle.pur_base.specs.Says.{Ascends};
ghost use Rattle.pur_base.specs.Visible.{is_elided};
ghost use Rattle.pur_base.specs.declared.request.Table.TheVariants as table;
ghost use Rattle.pyramid.specs.Layers.{facts_of};
ghost use Rattle.pyramid.specs.Shown.{IsShown};
ghost use Rattle.table_soundness.specs.Addresses.{AreAddressesListed, AreAddressesRight, EndsWithin, IsSmall, IsThere};

use crate::ids::are_ids_below;
use crate::last::last_of;
use pur_base::{AddressFact, ObjectFact, SegmentFact, SegmentId, Target};
use pyramid::Patch;

/// The segment of an id, or `None` where none has it.
fn find(segments: &[SegmentFact], id: SegmentId) -> Option<SegmentFact>
    requires { Ascends segment_key segments.now }
    ensures some { IfSome result (λ d. Contains segments.now d × (d.segment.0 ≡ id.0)) }
    ensures none { IfNone result (All (λ d. d.segment.0 ≢ id.0) segments.now) }
{
    last_of(segments, id.0)
}

/// Whether a stored sector was placed in one of the segments.
fn is_there(segments: &[SegmentFact], target: Target) -> bool
    requires { Ascends segment_key segments.now }
    ensures { IsTrue result ↔ IsThere segments.now target }
{
    match target {
        Target::Stored(location) => match find(segments, location.segment) {
            Some(segment) => location.index < segment.placed,
            None => false,
        },
        Target::Zero => true,
    }
}

/// The same of each address.
fn are_there(segments: &[SegmentFact], addresses: &[AddressFact]) -> bool
    requires { Ascends segment_key segments.now }
    ensures { IsTrue result ↔ All (λ f. IsThere segments.now f.target) addresses.now }
{
    for address in addresses {
        if !is_there(segments, address.target) {
            return false;
        }
    }
    true
}

/// Whether the addresses of the object's medium are of its sectors.
fn ends_within(object: &ObjectFact, addresses: &[AddressFact]) -> bool
    requires ascends { Ascends address_key addresses.now }
    requires small { All IsSmall addresses.now }
    ensures { IsTrue result ↔ EndsWithin addresses.now object.now }
{
    match last_of(addresses, object.medium.0) {
        Some(last) => last.sector < object.sectors,
        None => true,
    }
}

/// The same of each object.
fn end_within(objects: &[ObjectFact], addresses: &[AddressFact]) -> bool
    requires ascends { Ascends address_key addresses.now }
    requires small { All IsSmall addresses.now }
    ensures { IsTrue result ↔ All (EndsWithin addresses.now) objects.now }
{
    for object in objects {
        if !ends_within(object, addresses) {
            return false;
        }
    }
    true
}

/// Whether the addresses pass, as lists of them say it.
fn are_addresses_listed(
    next_medium: u64,
    patches: &[Patch<AddressFact>],
    shown: &[AddressFact],
    objects: &[ObjectFact],
    segments: &[SegmentFact],
) -> bool
    requires segments { Ascends segment_key segments.now }
    requires ascends { Ascends address_key shown.now }
    requires facts { All IsSmall (facts_of patches.now) }
    requires small { All IsSmall shown.now }
    ensures { IsTrue result ↔ AreAddressesListed next_medium (facts_of patches.now) shown.now objects.now segments.now }
{
    are_ids_below(patches, next_medium) && are_there(segments, shown) && end_within(objects, shown)
}

/// Whether the addresses are sound, of which these are the visible ones.
pub fn are_addresses_sound(
    next_medium: u64,
    patches: &[Patch<AddressFact>],
    shown: &[AddressFact],
    objects: &[ObjectFact],
    segments: &[SegmentFact],
) -> bool
    requires segments { Ascends segment_key segments.now }
    requires ascends { Ascends address_key shown.now }
    requires facts { All IsSmall (facts_of patches.now) }
    requires small { All IsSmall shown.now }
    ensures { (facts : Facts) → facts.addresses ≡ facts_of patches.now → All (λ f. f.object.0 < 2 ^ 64) facts.objects → All (λ f. f.segment.0 < 2 ^ 64) facts.segments
        → IsShown address_key (λ f. f.seq.0) never facts.addresses (is_elided facts.elisions table.Address) shown.now
        → IsShown object_key (λ f. f.seq.0) never facts.objects (is_elided facts.elisions table.Object) objects.now
        → IsShown segment_key (λ f. f.seq.0) never facts.segments (is_elided facts.elisions table.Segment) segments.now
        → IsTrue result ↔ AreAddressesRight next_medium facts }
{
    are_addresses_listed(next_medium, patches, shown, objects, segments)
}
