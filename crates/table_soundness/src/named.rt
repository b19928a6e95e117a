ghost use Rattle.std.specs.Prelude.{◌≡◌, ◌≢◌, ◌<◌, ◌↔◌, IsTrue, IfOk, All, AllPairs, map};
ghost use Rattle.std.specs.List.{flat_map};

use crate::distinct::are_distinct;
use boot_codec::{PatchSegment, Patches};
use pur_base::NoMemory;
use std::alloc::Global;

/// The segments of all patches.
pub fn named_segments(alloc: Global, patches: &Patches) -> Result<Vec<PatchSegment>, NoMemory>
    ensures { IfOk result (λ v. v.items ≡ flat_map (λ p. p.segments) patches.now) }
{
    let mut named = Vec::new(alloc);
    for i in 0..patches.len() {
        let patch = patches.at(i);
        named.extend_from_slice(patch.segments.as_slice())?;
    }
    Ok(named)
}

/// Whether the id of each segment is below the next one.
pub fn are_named_below(named: &[PatchSegment], next: u64) -> bool
    ensures { IsTrue result ↔ All (λ s. s.id < next) named.now }
{
    for segment in named {
        if segment.id >= next {
            return false;
        }
    }
    true
}

/// The ids of segments.
fn ids_of(alloc: Global, named: &[PatchSegment]) -> Result<Vec<u64>, NoMemory>
    ensures { IfOk result (λ v. v.items ≡ map (λ s. s.id) named.now) }
{
    let mut ids = Vec::new(alloc);
    for segment in named {
        ids.push(segment.id)?;
    }
    Ok(ids)
}

/// Whether segments have ids of their own.
pub fn are_named_apart(alloc: Global, named: &[PatchSegment]) -> Result<bool, NoMemory>
    ensures { IfOk result (λ b. IsTrue b ↔ AllPairs (λ s t. s.id ≢ t.id) named.now) }
{
    let mut ids = ids_of(alloc, named)?;
    Ok(are_distinct(alloc, &mut ids))
}
