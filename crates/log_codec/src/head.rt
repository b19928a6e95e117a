ghost use Rattle.std.specs.Prelude.{◌↔◌, ◌≤◌, ◌<◌, ◌^◌, IsTrue};
ghost use Rattle.log_codec.specs.Head.{IsCommand, IsCount, IsName};

use pur_base::{Name, REQUEST_SECTORS, Request};

// The most sectors that a create names, and the most that a copy takes.
const COUNT_MAX: u64 = u32::MAX as u64;

/// A logged command under its number. The sectors of a write follow the head.
#[derive(Clone, Copy, Drop)]
pub struct Head {
    pub number: u64,
    pub command: Request,
}

// Whether the name's bytes are those of a lawful name.
fn is_name(name: &Name) -> bool
    ensures { IsTrue result ↔ IsName name.now }
{
    Name::read(name.as_bytes()).is_ok()
}

// Whether both names are lawful.
fn are_names(first: &Name, second: &Name) -> bool
    ensures { IsTrue result ↔ (IsName first.now × IsName second.now) }
{
    is_name(first) && is_name(second)
}

// Whether a write, a fill or a zero can take so many sectors.
fn is_count(count: u8) -> bool
    ensures { IsTrue result ↔ IsCount count }
{
    1 <= count && (count as usize) <= REQUEST_SECTORS
}

// Whether this can be the name and the count of a command that writes sectors.
fn is_span(name: &Name, count: u8) -> bool
    ensures { IsTrue result ↔ (IsName name.now × IsCount count) }
{
    is_name(name) && is_count(count)
}

// Whether a copy can take so many sectors.
fn is_copied(count: u64) -> bool
    ensures { IsTrue result ↔ ((1 ≤ count) × (count < 2 ^ 32)) }
{
    1 <= count && count <= COUNT_MAX
}

/// Whether the request is a command that a head can spell: one of the eight kinds that are logged, its names lawful and its counts in their bounds.
pub fn is_command(request: &Request) -> bool
    ensures { IsTrue result ↔ IsCommand request.now }
{
    match request {
        Request::Create { name, sectors } => is_name(name) && *sectors <= COUNT_MAX,
        Request::Write { name, lba, count } => {
            // An LBA and a byte are in bounds by their types: they are read for the proof alone.
            let _lba = *lba;
            is_span(name, *count)
        }
        Request::Fill {
            name,
            lba,
            count,
            byte,
        } => {
            let (_lba, _byte) = (*lba, *byte);
            is_span(name, *count)
        }
        Request::Zero { name, lba, count } => {
            let _lba = *lba;
            is_span(name, *count)
        }
        Request::Snapshot { name, new } => are_names(name, new),
        Request::Clone { name, new } => are_names(name, new),
        Request::Copy {
            name,
            lba,
            to,
            to_lba,
            count,
        } => {
            let (_lba, _to_lba) = (*lba, *to_lba);
            are_names(name, to) && is_copied(*count)
        }
        Request::Destroy { name } => is_name(name),
        _ => false,
    }
}
