// What was read of the slots of a device.
ghost use Rattle.std.specs.Prelude.{◌≡◌, ◌&&◌, ◌<◌, ℕ, true, false, not, nat_lt, slice_index_or};
ghost use Rattle.log_codec.specs.declared.limits.TheConstants.{LOG_SLOTS};
ghost use Rattle.nvram_log.specs.declared.logged.Logged.{Logged};
ghost use Rattle.nvram_log.specs.Views.{IsSeenOf, IsThere, NoneThere};

use crate::Logged;
use crate::reading::DeviceRead;
use log_codec::LOG_SLOTS;

/// A flag for each slot.
pub type Flags = [bool; LOG_SLOTS];

/// Of each slot whether its gate is open, and whether it shows a command.
#[derive(Clone, Copy, Drop)]
pub struct SeenSlots {
    pub open: Flags,
    pub shown: Flags,
}

// Whether a record stands there.
fn is_there(records: &[Option<Logged>], i: usize) -> bool
    ensures some { result ≡ true → (l : Logged) × IsThere records.now i l }
    ensures none { result ≡ false → NoneThere records.now i }
{
    i < records.len() && records[i].is_some()
}

// Which slots show a command.
fn shown_in(records: &[Option<Logged>]) -> Flags
    ensures some { (i : ℕ) → i < LOG_SLOTS → slice_index_or result i false ≡ true → (l : Logged) × IsThere records.now i l }
    ensures none { (i : ℕ) → i < LOG_SLOTS → slice_index_or result i false ≡ false → NoneThere records.now i }
{
    let mut shown = [false; LOG_SLOTS];
    for i in 0..LOG_SLOTS {
        shown[i] = is_there(records, i);
    }
    shown
}

/// What was read of a device.
pub fn seen_of(read: &DeviceRead) -> SeenSlots
    ensures { IsSeenOf read.now result }
{
    SeenSlots {
        open: read.open,
        shown: shown_in(&read.records),
    }
}

// Whether a gate is to be closed: it is open, and not that of a slot of the log that shows a command.
fn is_to_close(is_open: bool, is_shown: bool, is_in_log: bool) -> bool
    ensures { result ≡ (is_open && not (is_shown && is_in_log)) }
{
    is_open && !(is_shown && is_in_log)
}

// Whether a slot of the log shows no command.
fn is_lacking(is_shown: bool, is_in_log: bool) -> bool
    ensures { result ≡ (is_in_log && not is_shown) }
{
    is_in_log && !is_shown
}

impl SeenSlots {
    /// The gates that are to be closed where the log has so many commands: those that are open, but for those of the log that show a command.
    pub fn closing(&self, count: usize) -> Flags
        ensures { (i : ℕ) → i < LOG_SLOTS → slice_index_or result i false ≡ (slice_index_or self.now.open i false && not (slice_index_or self.now.shown i false && nat_lt i count)) }
    {
        let mut closing = [false; LOG_SLOTS];
        for i in 0..LOG_SLOTS {
            closing[i] = is_to_close(self.open[i], self.shown[i], i < count);
        }
        closing
    }

    /// The slots of the log that show no command.
    pub fn lacking(&self, count: usize) -> Flags
        ensures { (i : ℕ) → i < LOG_SLOTS → slice_index_or result i false ≡ (nat_lt i count && not (slice_index_or self.now.shown i false)) }
    {
        let mut lacking = [false; LOG_SLOTS];
        for i in 0..LOG_SLOTS {
            lacking[i] = is_lacking(self.shown[i], i < count);
        }
        lacking
    }
}
