ghost use Rattle.std.specs.Prelude.{◌≡◌, ◌↔◌, ◌+◌, ◌<◌, ◌^◌, IsTrue};
ghost use Rattle.chain_reads.specs.Cursors.{weight, IsInRun};

use pur_base::{MediumId, Target};

/// A sector of a medium.
#[derive(Clone, Copy)]
pub struct Spot {
    pub medium: MediumId,
    pub sector: u32,
}

impl Spot {
    /// The sector so many behind it.
    pub fn behind(self, sectors: u32) -> Spot
        requires { self.sector + sectors < 2 ^ 32 }
        ensures { result ≡ record { medium = self.medium; sector = self.sector + sectors } }
    {
        Spot {
            medium: self.medium,
            sector: self.sector + sectors,
        }
    }
}

/// How far one of the sectors that are asked for has come.
#[derive(Clone, Copy)]
pub enum Cursor {
    /// It reads as this one does.
    At(Spot),
    /// It reads as this, or nothing says it.
    Settled(Option<Target>),
}

impl Cursor {
    /// Whether it may stand in a run that has this sector of the medium in its place: it is there, or settled.
    pub fn is_in_run(&self, medium: MediumId, sector: u64) -> bool
        ensures fits { IsTrue result → sector < 2 ^ 32 }
        ensures run { IsTrue result ↔ IsInRun medium.0 sector self.now }
    {
        match self {
            Cursor::At(spot) => spot.medium.0 == medium.0 && u64::from(spot.sector) == sector,
            Cursor::Settled(_) => sector <= u64::from(u32::MAX),
        }
    }

    /// What a settled one reads as.
    pub fn answer(&self) -> Option<Target>
        requires { weight self.now ≡ 0 }
        ensures { self.now ≡ Cursor.Settled result }
    {
        match self {
            Cursor::At(_) => unreachable!(),
            Cursor::Settled(answer) => *answer,
        }
    }
}
