//! What may be answered, what the devices of an array mean, and what outlives losses, writes and stops.
//! There is no code: each public function here promises, as its contract, a law of these definitions.
#![tactic(auto)]

mod replies;
mod standing;
mod stored;
mod uniqueness;
mod views;
mod writes;

pub use replies::{counts_replies, small_examples, worked_rows};
pub use standing::{
    a_held_record_stands, an_unflushed_array_is_read, each_view_means, marks_are_free,
    marks_may_clear, missing_devices_may_turn_blank, more_may_go_missing,
};
pub use stored::{
    a_checkpoint_follows, a_merge_follows, a_stored_record_is_read, free_writes, one_array_is_held,
};
pub use uniqueness::{
    one_command_is_spelled, one_fact_is_spelled, one_log_stands, one_sector_stands,
};
pub use views::{
    a_held_record_is_given, a_sector_reads_as_one_target, closing_gates, one_body_is_decided,
    one_record_is_effective, opening_gates, records_are_spelled_apart, the_log_is_between,
};
pub use writes::{boot_writes, log_writes, quiet_writes, settling_the_log, stores, two_fewer_hold};
