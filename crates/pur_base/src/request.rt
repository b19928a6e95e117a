ghost use Rattle.std.specs.Prelude.{◌≡◌, ◌≢◌, IfSome, IfNone};
ghost use Rattle.pur_base.specs.Tags.{tag_of};
ghost use Rattle.pur_base.specs.declared.request.Table.{Table};
ghost use Rattle.pur_base.specs.Commands.{is_removal};
ghost use Rattle.pur_base.specs.Grammar.{is_in_force, data_count};

use crate::name::Name;

/// The tables of facts.
#[derive(Clone, Copy, PartialEq, Eq)]
pub enum Table {
    Object,
    Medium,
    Address,
    Segment,
    Elision,
}

/// What a line asks for.
#[derive(Clone, Copy, Drop)]
pub enum Request {
    Create {
        name: Name,
        sectors: u64,
    },
    /// Data follows: as many sectors.
    Write {
        name: Name,
        lba: u64,
        count: u8,
    },
    Fill {
        name: Name,
        lba: u64,
        count: u8,
        byte: u8,
    },
    Zero {
        name: Name,
        lba: u64,
        count: u8,
    },
    Read {
        name: Name,
        lba: u64,
        count: u8,
    },
    Snapshot {
        name: Name,
        new: Name,
    },
    Clone {
        name: Name,
        new: Name,
    },
    Copy {
        name: Name,
        lba: u64,
        to: Name,
        to_lba: u64,
        count: u64,
    },
    Destroy {
        name: Name,
    },
    List,
    Status,
    Checkpoint,
    Merge {
        table: Table,
        index: u64,
    },
    Flatten {
        name: Name,
    },
    Clean {
        segment: u64,
    },
    Reclaim,
    Evict {
        drive: u64,
    },
    Admit {
        drive: u64,
    },
    Rebuild {
        drive: u64,
    },
    Takeover,
}

impl Table {
    /// The tag of the table's facts, from 1 to 5.
    pub fn tag(self) -> u8
        ensures { result ≡ tag_of self }
    {
        match self {
            Table::Object => 1,
            Table::Medium => 2,
            Table::Address => 3,
            Table::Segment => 4,
            Table::Elision => 5,
        }
    }

    /// The table of a tag, or `None` where no table has it.
    pub fn from_tag(tag: u8) -> Option<Table>
        ensures some { IfSome result (λ table. tag_of table ≡ tag) }
        ensures none { IfNone result ((table : Table) → tag_of table ≢ tag) }
    {
        match tag {
            1 => Some(Table::Object),
            2 => Some(Table::Medium),
            3 => Some(Table::Address),
            4 => Some(Table::Segment),
            5 => Some(Table::Elision),
            _ => None,
        }
    }
}

impl Request {
    /// Whether requests of this form are served.
    pub fn is_in_force(&self) -> bool
        ensures { result ≡ is_in_force self.now }
    {
        matches!(
            self,
            Request::Create { .. }
                | Request::Write { .. }
                | Request::Fill { .. }
                | Request::Zero { .. }
                | Request::Read { .. }
                | Request::Snapshot { .. }
                | Request::Clone { .. }
                | Request::Copy { .. }
                | Request::Destroy { .. }
                | Request::List
                | Request::Status
                | Request::Checkpoint
                | Request::Merge { .. }
                | Request::Flatten { .. }
        )
    }

    /// Whether it takes an object away, and adds nothing.
    pub fn is_removal(&self) -> bool
        ensures { result ≡ is_removal self.now }
    {
        matches!(self, Request::Destroy { .. })
    }

    /// How many sectors of data follow the request's line.
    pub fn data_sectors(&self) -> u8
        ensures { result ≡ data_count self.now }
    {
        match self {
            Request::Write { count, .. } => *count,
            _ => 0,
        }
    }
}
