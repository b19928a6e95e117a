ghost use Rattle.std.specs.Prelude.{◌≡◌, ◌≢◌, IfSome, IfNone};
ghost use Rattle.segment_codec.specs.Header.{kind_code};
ghost use Rattle.segment_codec.specs.declared.kind.SegmentKind.{SegmentKind};

const DATA: u8 = 1;

const PATCH: u8 = 2;

/// What a segment keeps: sectors of data, or the facts of a patch.
#[derive(Clone, Copy, PartialEq, Eq)]
pub enum SegmentKind {
    Data,
    Patch,
}

impl SegmentKind {
    /// The byte that stands for the kind.
    pub fn code(self) -> u8
        ensures { result ≡ kind_code self }
    {
        match self {
            SegmentKind::Data => DATA,
            SegmentKind::Patch => PATCH,
        }
    }

    /// The kind that a byte stands for, or `None` where it stands for none.
    pub fn from_code(code: u8) -> Option<SegmentKind>
        ensures some { IfSome result (λ kind. code ≡ kind_code kind) }
        ensures none { IfNone result ((kind : SegmentKind) → code ≢ kind_code kind) }
    {
        match code {
            DATA => Some(SegmentKind::Data),
            PATCH => Some(SegmentKind::Patch),
            _ => None,
        }
    }
}
