ghost use Rattle.std.specs.Prelude.{◌≡◌};
ghost use Rattle.record_tables.specs.Patches.{segments_for, counts_of, segments_of};

use array_memory::Counts;
use boot_codec::{FACTS_PER_SEGMENT, TAG_MAX};

/// How many segments a patch of so many facts takes.
pub fn segments_for(facts: usize) -> usize
    ensures { result ≡ segments_for facts }
{
    facts.div_ceil(FACTS_PER_SEGMENT as usize)
}

/// The count of each table, by ascending tag.
pub fn counts_of(counts: &Counts) -> [usize; TAG_MAX as usize]
    ensures { result ≡ counts_of counts.now }
{
    [
        counts.objects,
        counts.mediums,
        counts.addresses,
        counts.segments,
        counts.elisions,
    ]
}

/// How many segments the new patches of a plan take.
pub fn segments_of(counts: &Counts) -> usize
    ensures { result ≡ segments_of counts.now }
{
    segments_for(counts.objects)
        + segments_for(counts.mediums)
        + segments_for(counts.addresses)
        + segments_for(counts.segments)
        + segments_for(counts.elisions)
}
