// What was written is shown.
ghost use Rattle.std.specs.Prelude.{◌≡◌, ℕ, Bool, List, length};
ghost use Rattle.pur_base.specs.Devices.{Image, View};
ghost use Rattle.pur_base.specs.declared.facts.AnyFact.{AnyFact};
ghost use Rattle.pur_base.specs.declared.facts.SegmentFact.{SegmentFact};
ghost use Rattle.boot_codec.specs.Record.{IsPatch};
ghost use Rattle.boot_codec.specs.declared.patch.Patch.{Patch};
ghost use Rattle.array_spec.specs.Stored.{PatchStands};
ghost use Rattle.patch_io.specs.Tables.{AreInOrder};
ghost use Rattle.segment_writer.specs.DataPlacing.{HaveNine, AreFilled};
ghost use Rattle.segment_writer.specs.DataStoring as placed;
ghost use Rattle.segment_writer.specs.DataStanding.{DataStands};
ghost use Rattle.segment_writer.specs.PatchStoring as patch;

/// Sectors of which each segment's stand in it, but for its lost drives, are shown by each view in which at most two drives of each segment are missing.
pub fn laws_of_data()
    ensures { (image : Image) (segments : List SegmentFact) (lost : List Bool) (staged : List (List ℕ)) (order : List ℕ) (view : View) → HaveNine segments → AreFilled segments (length order)
        → placed.HoldsData image segments lost staged order → placed.ShowsMostOf image segments lost view → DataStands view segments staged order }
{}

/// A patch of which each segment's facts stand in it, but for its lost drives, is shown by each view in which at most two drives of each segment are missing.
pub fn laws_of_patches()
    ensures { (image : Image) (slots units : ℕ) (p : Patch) (lost : List Bool) (facts : List AnyFact) (view : View) → IsPatch slots units p → length facts ≡ p.facts → AreInOrder p.tag facts
        → patch.HoldsPatch image p lost facts → patch.ShowsMostOf image p lost view → PatchStands view p facts }
{}
