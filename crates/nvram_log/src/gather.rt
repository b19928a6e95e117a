// The log that the devices show is gathered in memory.
ghost use Rattle.std.specs.Prelude.{◌≡◌, ◌≢◌, ◌⊎◌, ℕ, ◌≤◌, [], length, slice_get, IfSome, IfNone, vec_capacity};
ghost use Rattle.log_codec.specs.declared.limits.TheConstants.{LOG_SLOTS};
ghost use Rattle.nvram_log.specs.declared.logged.Logged.{Logged};
ghost use Rattle.nvram_log.specs.Views.{AreGathered, IsThere, NoneThere};

use crate::Logged;
use log_codec::LOG_SLOTS;

// Takes a record from its place.
fn take_at(records: &mut [Option<Logged>], i: usize) -> Option<Logged>
    ensures some { IfSome result (IsThere records.old i) }
    ensures none { IfNone result (NoneThere records.old i) }
    ensures others { (k : ℕ) → k ≢ i → slice_get records.new k ≡ slice_get records.old k }
{
    if i < records.len() {
        records[i].take()
    } else {
        None
    }
}

// Takes that of the first device, or that of the second.
fn take_next(
    first: &mut [Option<Logged>],
    second: &mut [Option<Logged>],
    i: usize,
) -> Option<Logged>
    ensures some { IfSome result (λ l. IsThere first.old i l ⊎ (NoneThere first.old i × IsThere second.old i l)) }
    ensures none { IfNone result (NoneThere first.old i × NoneThere second.old i) }
    ensures first { (k : ℕ) → k ≢ i → slice_get first.new k ≡ slice_get first.old k }
    ensures second { (k : ℕ) → k ≢ i → slice_get second.new k ≡ slice_get second.old k }
{
    match take_at(first, i) {
        Some(record) => Some(record),
        None => take_at(second, i),
    }
}

/// Takes the records of the first slots, as long as a device shows one in the next. How many these are. It takes no memory.
pub fn gather(
    records: &mut Vec<Logged>,
    first: &mut [Option<Logged>],
    second: &mut [Option<Logged>],
) -> usize
    requires empty { records.old.items ≡ [] }
    requires room { LOG_SLOTS ≤ vec_capacity records.old }
    ensures slots { result ≤ LOG_SLOTS }
    ensures count { result ≡ length records.new.items }
    ensures gathered { AreGathered first.old second.old records.new.items }
{
    for i in 0..LOG_SLOTS {
        let Some(record) = take_next(first, second, i) else {
            return i;
        };
        if records.push(record).is_err() {
            unreachable!()
        }
    }
    LOG_SLOTS
}
