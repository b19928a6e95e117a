use pur_base::Refusal;

/// Why sectors weren't read.
#[derive(Clone, Copy, PartialEq, Eq)]
pub enum ReadFault {
    Refused(Refusal),
    /// Three drives of a stripe are each missing or failed.
    Lost,
}
