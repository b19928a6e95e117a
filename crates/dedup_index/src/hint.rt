ghost use Rattle.std.specs.Prelude.{◌≡◌, ℕ, List, map};

use pur_base::Sector;

/// A small hash of sectors. Equal sectors have equal hints, and sectors with equal hints may differ.
pub trait Hint {
    /// The hint of a sector of these bytes.
    ghost hint: { List ℕ → ℕ };

    /// The hint of a sector.
    fn of(sector: &Sector) -> u64
        ensures { result ≡ hint sector.now };

    /// The hints of four sectors, in their order.
    fn of_four(sectors: [&Sector; 4]) -> [u64; 4]
        ensures { result ≡ map (λ s. hint s.now) sectors.entry };
}
