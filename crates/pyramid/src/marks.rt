ghost use Rattle.std.specs.Prelude.{◌≡◌, ℕ, ◌+◌, ◌<◌, false, slice_index_or};
ghost use Rattle.pyramid.specs.Marks.{group_of, mark_of, AreMarked};

use pur_base::Fact;

/// How many marks a patch has.
const MARKS: usize = 1024;

/// How many keys in a row are a group.
const GROUP_KEYS: u128 = 64;

/// How many groups an id has.
const ID_GROUPS: u128 = 1 << 58;

/// How far the marks of ids in a row lie apart.
const ID_STEP: usize = 37;

/// A mark for each group of keys of which a patch has facts; groups may share one. A patch without the mark of a key needs no search.
pub type Marks = [bool; MARKS];

/// The group of a key.
fn group_of(key: u128) -> u128
    ensures { result ≡ group_of key }
{
    key / GROUP_KEYS
}

/// Where the mark of a group stands.
fn mark_of(group: u128) -> usize
    ensures value { result ≡ mark_of group }
    ensures within { result < MARKS }
{
    let id = (group / ID_GROUPS % MARKS as u128) as usize;
    let place = (group % MARKS as u128) as usize;
    (id * ID_STEP + place) % MARKS
}

/// The marks of some facts.
pub fn marks_of<F: Fact>(facts: &[F]) -> Marks
    ensures { AreMarked F.key facts.now result }
{
    let mut marks = [false; MARKS];
    for fact in facts {
        marks[mark_of(group_of(fact.key()))] = true;
    }
    marks
}

/// Whether the mark of the key's group is set.
pub fn is_marked(marks: &Marks, key: u128) -> bool
    ensures { result ≡ slice_index_or marks.now (mark_of (group_of key)) false }
{
    marks[mark_of(group_of(key))]
}

/// Whether the mark of a group is set of which one of so many keys is, from the first one on.
pub fn is_any_marked(marks: &Marks, from: u128, len: usize) -> bool
    ensures { result ≡ false → (i : ℕ) → i < len → slice_index_or marks.now (mark_of (group_of (from + i))) false ≡ false }
{
    let first = group_of(from);
    let groups = (from % GROUP_KEYS + len as u128).div_ceil(GROUP_KEYS);
    let mut group = 0;
    while group < groups {
        if marks[mark_of(first + group)] {
            return true;
        }
        group += 1;
    }
    false
}
