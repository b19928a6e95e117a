// What is logged.
use pur_base::{Request, Sector};

/// A command that is to be logged, with the sectors that a write brings.
#[derive(Clone, Copy, Drop)]
pub struct Record<'a> {
    pub request: &'a Request,
    pub sectors: &'a [Sector],
}
