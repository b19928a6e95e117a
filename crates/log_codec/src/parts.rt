ghost use Rattle.std.specs.Prelude.{◌≡◌, ◌↔◌, ◌≤◌, ℕ, List, [], length, IsTrue, IfSome, IfNone};
ghost use Rattle.pur_base.specs.declared.limits.TheConstants.{NAME_BYTES};
ghost use Rattle.pur_base.specs.declared.request.Request.{Request};
ghost use Rattle.pur_base.specs.declared.request.Request.TheVariants as request;
ghost use Rattle.log_codec.specs.Head.{IsCommand};
ghost use Rattle.log_codec.specs.Parts.{ArePartsOf, AreSame, Finds};

use crate::head::is_command;
use pur_base::{Name, Request};

const CREATE: u8 = 1;

const WRITE: u8 = 2;

const FILL: u8 = 3;

const ZERO: u8 = 4;

const SNAPSHOT: u8 = 5;

const CLONE: u8 = 6;

const COPY: u8 = 7;

const DESTROY: u8 = 8;

/// The parts of a command, of whatever kind. What a kind doesn't have is empty or zero.
#[derive(Drop)]
pub struct Parts<'a> {
    pub kind: u8,
    pub first: &'a [u8],
    pub second: &'a [u8],
    /// The byte of a fill.
    pub byte: u8,
    /// The sectors of a create, and the count of a write, a fill, a zero and a copy.
    pub count: u32,
    pub lba: u64,
    /// The LBA of a copy's target.
    pub second_lba: u64,
}

// The parts of a command that has a kind and a name alone.
fn named(kind: u8, name: &Name) -> Parts<'_>
    ensures kind { result.kind ≡ kind }
    ensures first { result.first.now ≡ name.now }
    ensures len { length name.now ≤ NAME_BYTES }
    ensures second { result.second.now ≡ [] }
    ensures byte { result.byte ≡ 0 }
    ensures count { result.count ≡ 0 }
    ensures lba { result.lba ≡ 0 }
    ensures second_lba { result.second_lba ≡ 0 }
{
    Parts {
        kind,
        first: name.as_bytes(),
        second: &[],
        byte: 0,
        count: 0,
        lba: 0,
        second_lba: 0,
    }
}

impl<'a> Parts<'a> {
    /// The parts of a command.
    pub fn of(command: &'a Request) -> Parts<'a>
        requires { IsCommand command.now }
        ensures parts { ArePartsOf result command.now }
        ensures first { length result.first.now ≤ NAME_BYTES }
        ensures second { length result.second.now ≤ NAME_BYTES }
    {
        match command {
            Request::Create { name, sectors } => Parts {
                count: *sectors as u32,
                ..named(CREATE, name)
            },
            Request::Write { name, lba, count } => Parts {
                count: *count as u32,
                lba: *lba,
                ..named(WRITE, name)
            },
            Request::Fill {
                name,
                lba,
                count,
                byte,
            } => Parts {
                byte: *byte,
                count: *count as u32,
                lba: *lba,
                ..named(FILL, name)
            },
            Request::Zero { name, lba, count } => Parts {
                count: *count as u32,
                lba: *lba,
                ..named(ZERO, name)
            },
            Request::Snapshot { name, new } => Parts {
                second: new.as_bytes(),
                ..named(SNAPSHOT, name)
            },
            Request::Clone { name, new } => Parts {
                second: new.as_bytes(),
                ..named(CLONE, name)
            },
            Request::Copy {
                name,
                lba,
                to,
                to_lba,
                count,
            } => Parts {
                second: to.as_bytes(),
                count: *count as u32,
                lba: *lba,
                second_lba: *to_lba,
                ..named(COPY, name)
            },
            Request::Destroy { name } => named(DESTROY, name),
            _ => unreachable!(),
        }
    }

    /// Whether the two are the same, part by part.
    fn are_same(&self, other: &Parts<'_>) -> bool
        ensures { IsTrue result ↔ AreSame self.now other.now }
    {
        let names = self.first == other.first && self.second == other.second;
        let numbers = self.count == other.count
            && self.lba == other.lba
            && self.second_lba == other.second_lba;
        self.kind == other.kind && names && self.byte == other.byte && numbers
    }

    // The count as one byte, or `None` where it is too large for one.
    fn small_count(&self) -> Option<u8>
        ensures some { IfSome result (λ count. count ≡ self.now.count) }
        ensures none { IfNone result (256 ≤ self.now.count) }
    {
        if self.count > u8::MAX as u32 {
            return None;
        }
        Some(self.count as u8)
    }

    // The create of these parts. This and the functions below take what their kind has, and leave the rest unjudged.
    fn read_create(&self) -> Option<Request>
        ensures { (n : List ℕ) (sectors : ℕ) → Finds self.now result (request.Create n sectors) }
    {
        let Ok(name) = Name::read(self.first) else {
            return None;
        };
        Some(Request::Create {
            name,
            sectors: self.count as u64,
        })
    }

    fn read_write(&self) -> Option<Request>
        ensures { (n : List ℕ) (lba count : ℕ) → Finds self.now result (request.Write n lba count) }
    {
        let Ok(name) = Name::read(self.first) else {
            return None;
        };
        let Some(count) = self.small_count() else {
            return None;
        };
        Some(Request::Write {
            name,
            lba: self.lba,
            count,
        })
    }

    fn read_fill(&self) -> Option<Request>
        ensures { (n : List ℕ) (lba count byte : ℕ) → Finds self.now result (request.Fill n lba count byte) }
    {
        let Ok(name) = Name::read(self.first) else {
            return None;
        };
        let Some(count) = self.small_count() else {
            return None;
        };
        Some(Request::Fill {
            name,
            lba: self.lba,
            count,
            byte: self.byte,
        })
    }

    fn read_zero(&self) -> Option<Request>
        ensures { (n : List ℕ) (lba count : ℕ) → Finds self.now result (request.Zero n lba count) }
    {
        let Ok(name) = Name::read(self.first) else {
            return None;
        };
        let Some(count) = self.small_count() else {
            return None;
        };
        Some(Request::Zero {
            name,
            lba: self.lba,
            count,
        })
    }

    fn read_snapshot(&self) -> Option<Request>
        ensures { (n new : List ℕ) → Finds self.now result (request.Snapshot n new) }
    {
        let Ok(name) = Name::read(self.first) else {
            return None;
        };
        let Ok(new) = Name::read(self.second) else {
            return None;
        };
        Some(Request::Snapshot { name, new })
    }

    fn read_clone(&self) -> Option<Request>
        ensures { (n new : List ℕ) → Finds self.now result (request.Clone n new) }
    {
        let Ok(name) = Name::read(self.first) else {
            return None;
        };
        let Ok(new) = Name::read(self.second) else {
            return None;
        };
        Some(Request::Clone { name, new })
    }

    fn read_copy(&self) -> Option<Request>
        ensures { (n : List ℕ) (lba : ℕ) (m : List ℕ) (to count : ℕ) → Finds self.now result (request.Copy n lba m to count) }
    {
        let Ok(name) = Name::read(self.first) else {
            return None;
        };
        let Ok(to) = Name::read(self.second) else {
            return None;
        };
        Some(Request::Copy {
            name,
            lba: self.lba,
            to,
            to_lba: self.second_lba,
            count: self.count as u64,
        })
    }

    fn read_destroy(&self) -> Option<Request>
        ensures { (n : List ℕ) → Finds self.now result (request.Destroy n) }
    {
        let Ok(name) = Name::read(self.first) else {
            return None;
        };
        Some(Request::Destroy { name })
    }

    // The only command that these can be the parts of. Whether they are isn't judged.
    fn candidate(&self) -> Option<Request>
        ensures { (command : Request) → Finds self.now result command }
    {
        match self.kind {
            CREATE => self.read_create(),
            WRITE => self.read_write(),
            FILL => self.read_fill(),
            ZERO => self.read_zero(),
            SNAPSHOT => self.read_snapshot(),
            CLONE => self.read_clone(),
            COPY => self.read_copy(),
            DESTROY => self.read_destroy(),
            _ => None,
        }
    }

    /// The command of these parts, or `None` where they are the parts of none.
    pub fn command(&self) -> Option<Request>
        ensures some { IfSome result (λ command. IsCommand command × ArePartsOf self.now command) }
        ensures complete { (command : Request) → Finds self.now result command }
    {
        let Some(command) = self.candidate() else {
            return None;
        };
        if !is_command(&command) || !self.are_same(&Parts::of(&command)) {
            return None;
        }
        Some(command)
    }
}
