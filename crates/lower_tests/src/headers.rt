ghost use Rattle.std.specs.Prelude.{◌≡◌, ◌<◌};
ghost use Rattle.pur_base.specs.declared.limits.TheConstants.{SECTOR_BYTES};
ghost use Rattle.segment_codec.specs.Header.{IsLawful, IsOfNoPatch};
ghost use Rattle.segment_codec.specs.declared.kind.SegmentKind.TheVariants.{Data, Patch};

use pur_base::{Place, SECTOR_BYTES, Sector, SegmentId};
use segment_codec::{BadHeader, Header, Position, SegmentKind, read_header, write_header};

const FIELDS: usize = 67;

// The header of the unit of Q of a full segment of data.
const DATA: [u8; FIELDS] = [
    80, 85, 82, 83, 69, 71, 77, 84, // PURSEGMT
    0, 0, 0, 0, 0, 0, 1, 2, // segment 258
    0, 0, 0, 0, 0, 0, 3, 4, // generation 772
    1, 8, 3, 72, // data, Q, 840 sectors
    0, 0, 0, 0, // no tag
    0, 0, 0, 0, 0, 0, 0, 0, // no part, parts or facts
    0, 0, 3, 1, 15, 255, 2, 0, 5, 3, 2, 88, 4, 0, 7, 6, 0, 8, 7, 0, 9, 20, 0, 10, 23, 0, 11,
];

// The header of the first unit of the second segment of a patch: two segments of 6,721 elision facts.
const PATCH: [u8; FIELDS] = [
    80, 85, 82, 83, 69, 71, 77, 84, // PURSEGMT
    0, 0, 0, 0, 0, 0, 1, 2, // segment 258
    0, 0, 0, 0, 0, 0, 3, 4, // generation 772
    2, 0, 0, 1, // patch, the first shard, 1 sector
    5, 0, 0, 0, // elision
    0, 1, 0, 2, 0, 0, 26, 65, // part 1 of 2, 6721 facts
    0, 0, 3, 1, 15, 255, 2, 0, 5, 3, 2, 88, 4, 0, 7, 6, 0, 8, 7, 0, 9, 20, 0, 10, 23, 0, 11,
];

const fn place(slot: u8, unit: u16) -> Place {
    Place { slot, unit }
}

fn data_header() -> Header
    ensures lawful { IsLawful result }
    ensures no_patch { IsOfNoPatch result }
{
    Header {
        segment: SegmentId(258),
        generation: 772,
        kind: SegmentKind::Data,
        shard: 8,
        placed: 840,
        tag: 0,
        part: 0,
        parts: 0,
        facts: 0,
        places: [
            place(0, 3),
            place(1, 4095),
            place(2, 5),
            place(3, 600),
            place(4, 7),
            place(6, 8),
            place(7, 9),
            place(20, 10),
            place(23, 11),
        ],
    }
}

fn patch_header() -> Header
    ensures lawful { IsLawful result }
    ensures patch { result.kind ≡ Patch }
{
    Header {
        kind: SegmentKind::Patch,
        shard: 0,
        placed: 1,
        tag: 5,
        part: 1,
        parts: 2,
        facts: 6721,
        ..data_header()
    }
}

fn sector_of(fields: &[u8; FIELDS]) -> Sector {
    let mut bytes = [0; SECTOR_BYTES];
    bytes[..FIELDS].copy_from_slice(fields);
    Sector::new(bytes)
}

// The sector of the fields of data, with one byte changed.
fn changed(at: usize, byte: u8) -> Sector
    requires { at < SECTOR_BYTES }
{
    let mut bytes = [0; SECTOR_BYTES];
    bytes[..FIELDS].copy_from_slice(&DATA);
    bytes[at] = byte;
    Sector::new(bytes)
}

// Whether the header is written as these fields, and is read from there.
fn stands(header: &Header, fields: &[u8; FIELDS]) -> bool
    requires lawful { IsLawful header.now }
    requires no_patch { header.now.kind ≡ Data → IsOfNoPatch header.now }
{
    let sector = write_header(header);
    sector.as_bytes() == sector_of(fields).as_bytes() && read_header(&sector) == Ok(*header)
}

// Whether the fields of data with this byte raised by one are refused where they have to be, and are another header else.
fn is_raised(at: usize) -> bool
    requires { at < FIELDS }
{
    // the word, the kind, the shard, the sectors placed, the tag and the zeros behind it
    let refused = at < 8 || (at >= 24 && at < 32);
    match read_header(&changed(at, DATA[at].wrapping_add(1))) {
        Ok(header) => !refused && header != data_header(),
        Err(_) => refused,
    }
}

fn all_are_raised() -> bool {
    for at in 0..FIELDS {
        if !is_raised(at) {
            return false;
        }
    }
    true
}

// Whether a byte behind the fields is refused.
fn is_bad(at: usize) -> bool
    requires { at < SECTOR_BYTES }
{
    read_header(&changed(at, 1)) == Err(BadHeader)
}

const LAST: Position = Position {
    stripe: 14,
    shard: 6,
    eighth: 7,
};

fn last_is_placed() -> bool {
    Position::of(839) == LAST && LAST.index() == 839
}

#[test]
fn each_holds(rt: HostRuntime) {
    assert!(rt;
        stands(&data_header(), &DATA)
            && stands(&patch_header(), &PATCH)
            && all_are_raised()
            && is_bad(FIELDS)
            && is_bad(SECTOR_BYTES - 1)
            && last_is_placed()
    );
}
