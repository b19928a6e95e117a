ghost use Rattle.std.specs.Prelude.{◌≡◌, ◌<◌};
ghost use Rattle.pur_base.specs.declared.limits.TheConstants.{SEGMENT_SECTORS};

/// The bytes of a write unit, of which a unit has 16: its header, and a shard of each stripe.
pub const WRITE_UNIT_BYTES: usize = 4096;

/// The sectors of data of a stripe: seven shards of eight.
pub const STRIPE_SECTORS: u16 = 56;

/// The stripes of a segment.
pub const STRIPES: u8 = 15;

/// The shards of data of a stripe.
pub const DATA_SHARDS: u8 = 7;

/// The sectors of a shard in a stripe.
pub const SHARD_SECTORS: u16 = 8;

/// Where a sector of data stands in its segment. Sectors go through a shard first, then through the stripe's shards.
#[derive(Clone, Copy, PartialEq, Eq)]
pub struct Position {
    /// The stripe, below 15.
    pub stripe: u8,
    /// The shard of the stripe, below 7.
    pub shard: u8,
    /// The sector of the shard, below 8.
    pub eighth: u8,
}

impl Position {
    ghost use Rattle.segment_codec.specs.Position.{stripe_of, shard_of, eighth_of, IsPosition, index_of};
    ghost use Rattle.segment_codec.specs.declared.position.Position.{Position};

    /// Where the sector of that index stands.
    pub fn of(index: u16) -> Position
        requires { index < SEGMENT_SECTORS }
        ensures stripe { result.stripe ≡ stripe_of index }
        ensures shard { result.shard ≡ shard_of index }
        ensures eighth { result.eighth ≡ eighth_of index }
        ensures bounds { IsPosition result }
        ensures inverse { index_of result ≡ index }
        ensures only { (position : Position) → IsPosition position → index_of position ≡ index → position ≡ result }
    {
        let within = index % STRIPE_SECTORS;
        Position {
            stripe: (index / STRIPE_SECTORS) as u8,
            shard: (within / SHARD_SECTORS) as u8,
            eighth: (within % SHARD_SECTORS) as u8,
        }
    }

    /// The index of the sector that stands there.
    pub fn index(self) -> u16
        requires { IsPosition self }
        ensures index { result ≡ index_of self }
        ensures bound { result < SEGMENT_SECTORS }
    {
        self.stripe as u16 * STRIPE_SECTORS + self.shard as u16 * SHARD_SECTORS + self.eighth as u16
    }
}
