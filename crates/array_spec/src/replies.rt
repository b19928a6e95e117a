// Runs of replies, and worked examples.
ghost use Rattle.array_spec.specs.Acked.{CountsReplies, CutIsNone};
ghost use Rattle.array_spec.specs.Examples.{GroupsOfEleven, WhatFactsSay};
ghost use Rattle.array_spec.specs.Rows.{WorkedRows};

/// The definitions give these worked rows.
pub fn worked_rows()
    ensures { WorkedRows }
{}

/// Replies delimit themselves: behind whole replies and a part of one more, those that are counted are the whole ones.
pub fn counts_replies()
    ensures counts { CountsReplies }
    ensures cut { CutIsNone }
{}

/// The definitions give these small examples: of room for segments, and of what facts say.
pub fn small_examples()
    ensures groups { GroupsOfEleven }
    ensures facts { WhatFactsSay }
{}
