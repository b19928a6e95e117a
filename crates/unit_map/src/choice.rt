ghost use Rattle.std.specs.Prelude.{◌≡◌, ◌<◌, ◌≤◌, length, IfSome, IfNone};
ghost use Rattle.unit_map.specs.Map.{total_at};
ghost use Rattle.unit_map.specs.Choice.{IsBestOffer, IsNoOffer, IsChoice};

use crate::drive::Drive;
use pur_base::{SEGMENT_SHARDS, SLOTS_MAX};

pub const SLOTS: usize = SLOTS_MAX as usize;

/// The slot of the member with the most free units of those that aren't chosen, or `None` where these have none.
fn best_offer(drives: &[Drive], chosen: &[bool; SLOTS]) -> Option<usize>
    requires { length drives.now ≤ SLOTS_MAX }
    ensures some { IfSome result (λ slot. IsBestOffer drives.now chosen.now slot) }
    ensures none { IfNone result (IsNoOffer drives.now chosen.now) }
{
    let mut best = 0;
    let mut most = 0;
    for slot in 0..drives.len() {
        let offer = drives[slot].offer(chosen[slot]);
        if most < offer {
            best = slot;
            most = offer;
        }
    }
    if most == 0 { None } else { Some(best) }
}

/// The nine members with the most free units, or `None` where fewer than nine have one.
pub fn most_free(drives: &[Drive]) -> Option<[bool; SLOTS]>
    requires { length drives.now ≤ SLOTS_MAX }
    ensures some { IfSome result (λ chosen. IsChoice drives.now chosen SEGMENT_SHARDS) }
    ensures none { IfNone result (total_at drives.now 1 < SEGMENT_SHARDS) }
{
    let mut chosen = [false; SLOTS];
    for _shard in 0..SEGMENT_SHARDS {
        match best_offer(drives, &chosen) {
            Some(slot) => chosen[slot] = true,
            None => return None,
        }
    }
    Some(chosen)
}
