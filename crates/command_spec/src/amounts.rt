ghost use Rattle.std.specs.Prelude.{◌≡◌};
ghost use Rattle.command_spec.specs.Room.{taken};

use pur_base::Request;

/// How much of each kind: facts that aren't flushed, staged sectors, names of objects, and ranges of their elided ids.
#[derive(Clone, Copy)]
pub struct Amounts {
    pub objects: usize,
    pub mediums: usize,
    pub addresses: usize,
    pub elisions: usize,
    pub staged: usize,
    pub names: usize,
    pub ranges: usize,
}

/// Nothing of any kind.
pub const NOTHING: Amounts = Amounts {
    objects: 0,
    mediums: 0,
    addresses: 0,
    elisions: 0,
    staged: 0,
    names: 0,
    ranges: 0,
};

/// What a request takes up at most.
pub fn taken(request: &Request) -> Amounts
    ensures { result ≡ taken request.now }
{
    match request {
        Request::Create { .. } => Amounts {
            objects: 1,
            names: 1,
            ..NOTHING
        },
        Request::Write { count, .. } => Amounts {
            addresses: usize::from(*count),
            staged: usize::from(*count),
            ..NOTHING
        },
        Request::Fill { count, .. } => Amounts {
            addresses: usize::from(*count),
            staged: usize::from(*count),
            ..NOTHING
        },
        Request::Zero { count, .. } => Amounts {
            addresses: usize::from(*count),
            ..NOTHING
        },
        Request::Snapshot { .. } => Amounts {
            objects: 2,
            mediums: 1,
            names: 1,
            ..NOTHING
        },
        Request::Clone { .. } => Amounts {
            objects: 2,
            mediums: 2,
            names: 1,
            ..NOTHING
        },
        Request::Copy { .. } => Amounts {
            objects: 2,
            mediums: 4,
            ..NOTHING
        },
        Request::Destroy { .. } => Amounts {
            elisions: 1,
            ranges: 1,
            ..NOTHING
        },
        _ => NOTHING,
    }
}
