// A world whose calls all fail from some call on.
ghost use Rattle.std.specs.Prelude.{◌≡◌, ◌+◌, false, true};
ghost use Rattle.pur_base.specs.declared.device.Device.{Device};
ghost use Rattle.world_mem.specs.Fuse.{extra_of, none};

use crate::MemWorld;
use crate::extra::{Extra, count};
use pur_base::{Device, NVRAM_DEVICES, SLOTS_MAX};
use world::{Failed, Shelf, Sink, Source, World};

const DRIVES: usize = SLOTS_MAX as usize;

const NVRAM: usize = NVRAM_DEVICES as usize;

/// A world that passes so many device calls. Then it is cut off: each later call of it fails, and what is within stays as it was.
#[derive(Drop)]
pub struct Fused<W: Shelf> {
    inner: W,
    left: u64,
    blown: bool,
    drives: [Extra; DRIVES],
    nvram: [Extra; NVRAM],
    source_faults: u64,
    sink_faults: u64,
    ghost blown_out: { blown ≡ true → left ≡ 0 },
    ghost whole: { blown ≡ false → (d : Device) → extra_of drives nvram d ≡ none },
}

impl<W: Shelf> Fused<W> {
    ghost use Rattle.std.specs.Prelude.{ℕ, ◌↔◌, ◌≤◌, IsTrue};
    ghost use Rattle.world.specs.Shelf.{Stop, MayStop};
    ghost use Rattle.world_mem.specs.Fuse.{fused_by};

    /// The world, with a fuse that passes so many device calls.
    pub fn new(world: W, calls: u64) -> Fused<W>
        ensures inner { result.inner ≡ world }
        ensures left { result.left ≡ calls }
        ensures not_blown { result.blown ≡ false }
    {
        let sound = Extra {
            faults: 0,
            write_faults: 0,
        };
        Fused {
            inner: world,
            left: calls,
            blown: false,
            drives: [sound; DRIVES],
            nvram: [sound; NVRAM],
            source_faults: 0,
            sink_faults: 0,
        }
    }

    /// Whether a device call failed at the fuse.
    pub fn blown(&self) -> bool
        ensures { result ≡ self.now.blown }
    {
        self.blown
    }

    /// The world within.
    pub fn inner(&self) -> &W
        ensures { result.now ≡ self.now.inner }
    {
        &self.inner
    }

    /// The world within: as it was when the fuse blew, if it has.
    pub fn into_inner(self) -> W
        ensures inner { result ≡ self.inner }
        // What a stop of it may leave is a stop of which the fused world tells.
        ensures left { (t : ℕ) (stop : Stop) → t ≤ (W.shelf result).moment → MayStop (W.shelf result) stop → (fused_by (W.shelf self.inner) self.blown self.drives self.nvram).left_since t stop }
    {
        let Fused {
            inner,
            left: _,
            blown: _,
            drives: _,
            nvram: _,
            source_faults: _,
            sink_faults: _,
        } = self;
        inner
    }
}

impl Fused<MemWorld> {
    ghost use Rattle.world.specs.Streams.{SameStream};
    ghost use Rattle.world_mem.specs.Past.{view, forgotten, sourced, sunk, SamePlans};

    /// The world within forgets its calls so far: nothing is claimed of a stop before this.
    pub fn forget(&mut self)
        ensures forgets { view self.new.inner ≡ forgotten (view self.old.inner) }
        ensures plans { SamePlans self.old.inner self.new.inner }
        ensures source { SameStream (sourced self.old.inner) (sourced self.new.inner) }
        ensures sink { SameStream (sunk self.old.inner) (sunk self.new.inner) }
        ensures faults { (self.new.source_faults ≡ self.old.source_faults) × (self.new.sink_faults ≡ self.old.sink_faults) }
        ensures left { self.new.left ≡ self.old.left }
        ensures blown { self.new.blown ≡ self.old.blown }
    {
        self.inner.forget();
    }
}

impl<W: Shelf> Shelf for Fused<W> {
    ghost use Rattle.std.proofs.Common.{◌∙◌};
    ghost use Rattle.std.specs.Prelude.{refl, length, slice_range, OnOk, IsErr};
    ghost use Rattle.world.specs.Shelf.{Has, IsOf, IsSame, ReadCounts, WriteCounts, WasWritten, WasSynced, OthersStay, Elapses};
    ghost use Rattle.world_mem.specs.Fuse.{fuse, fused_by, Burns, CutOff};
    ghost use Rattle.world_mem.specs.FuseLaws.{fused_shelf, not_cut, cut_then};

    ghost shelf = { λ f. fused_by (W.shelf f.inner) f.blown f.drives f.nvram };

    ghost shelf_rest = { λ a b. W.shelf_rest a.inner b.inner × CutOff a.blown b.blown (b.inner ≡ a.inner) × (b.source_faults ≡ a.source_faults) × (b.sink_faults ≡ a.sink_faults) };

    ghost is_shelf = { λ f. fused_shelf (W.shelf f.inner) (fuse f.blown f.drives f.nvram) (W.is_shelf f.inner) f.whole };

    ghost shelf_rest_stays = { record { reflexive = λ f. (W.shelf_rest_stays.reflexive f.inner, not_cut f.blown, refl, refl); transitive = λ a b c ab bc. (W.shelf_rest_stays.transitive a.inner b.inner c.inner ab.0 bc.0, cut_then ab.1 bc.1, bc.2 ∙ ab.2, bc.3 ∙ ab.3) } };

    fn drives(&self) -> u8 {
        self.inner.drives()
    }

    fn units(&self) -> u16 {
        self.inner.units()
    }

    fn read(&mut self, device: Device, at: u64, into: &mut [u8]) -> Result<(), Failed>
        requires { Has (fused_by (W.shelf self.old.inner) self.old.blown self.old.drives self.old.nvram) device at (length into.old) }
        ensures bytes { OnOk result ((fused_by (W.shelf self.old.inner) self.old.blown self.old.drives self.old.nvram).honest → into.new ≡ slice_range ((fused_by (W.shelf self.old.inner) self.old.blown self.old.drives self.old.nvram).disk device).bytes at (at + length into.old)) }
        ensures device { (fused_by (W.shelf self.old.inner) self.old.blown self.old.drives self.old.nvram).honest → IsSame ((fused_by (W.shelf self.old.inner) self.old.blown self.old.drives self.old.nvram).disk device) ((fused_by (W.shelf self.new.inner) self.new.blown self.new.drives self.new.nvram).disk device) }
        ensures counts { ReadCounts result ((fused_by (W.shelf self.old.inner) self.old.blown self.old.drives self.old.nvram).disk device) ((fused_by (W.shelf self.new.inner) self.new.blown self.new.drives self.new.nvram).disk device) }
        ensures others { OthersStay device (fused_by (W.shelf self.old.inner) self.old.blown self.old.drives self.old.nvram) (fused_by (W.shelf self.new.inner) self.new.blown self.new.drives self.new.nvram) }
        ensures time { Elapses (fused_by (W.shelf self.old.inner) self.old.blown self.old.drives self.old.nvram) (fused_by (W.shelf self.new.inner) self.new.blown self.new.drives self.new.nvram) }
        ensures rest { W.shelf_rest self.old.inner self.new.inner × CutOff self.old.blown self.new.blown (self.new.inner ≡ self.old.inner) × (self.new.source_faults ≡ self.old.source_faults) × (self.new.sink_faults ≡ self.old.sink_faults) }
        // It counts down, and fails where nothing was left.
        ensures burns { Burns self.old.left self.old.blown self.new.left self.new.blown }
        ensures cut_off { self.new.blown ≡ true → IsErr result }
    {
        if self.left == 0 {
            self.blown = true;
            count(&mut self.drives, &mut self.nvram, device, false);
            return Err(Failed);
        }
        self.left -= 1;
        self.inner.read(device, at, into)
    }

    fn write(&mut self, device: Device, at: u64, from: &[u8]) -> Result<(), Failed>
        requires { Has (fused_by (W.shelf self.old.inner) self.old.blown self.old.drives self.old.nvram) device at (length from.now) }
        ensures device { (fused_by (W.shelf self.old.inner) self.old.blown self.old.drives self.old.nvram).honest → WasWritten result (fused_by (W.shelf self.new.inner) self.new.blown self.new.drives self.new.nvram).lapsed at from.now ((fused_by (W.shelf self.old.inner) self.old.blown self.old.drives self.old.nvram).disk device) ((fused_by (W.shelf self.new.inner) self.new.blown self.new.drives self.new.nvram).disk device) }
        ensures counts { WriteCounts result ((fused_by (W.shelf self.old.inner) self.old.blown self.old.drives self.old.nvram).disk device) ((fused_by (W.shelf self.new.inner) self.new.blown self.new.drives self.new.nvram).disk device) }
        ensures others { OthersStay device (fused_by (W.shelf self.old.inner) self.old.blown self.old.drives self.old.nvram) (fused_by (W.shelf self.new.inner) self.new.blown self.new.drives self.new.nvram) }
        ensures time { Elapses (fused_by (W.shelf self.old.inner) self.old.blown self.old.drives self.old.nvram) (fused_by (W.shelf self.new.inner) self.new.blown self.new.drives self.new.nvram) }
        ensures rest { W.shelf_rest self.old.inner self.new.inner × CutOff self.old.blown self.new.blown (self.new.inner ≡ self.old.inner) × (self.new.source_faults ≡ self.old.source_faults) × (self.new.sink_faults ≡ self.old.sink_faults) }
        // It counts down, and fails where nothing was left.
        ensures burns { Burns self.old.left self.old.blown self.new.left self.new.blown }
        ensures cut_off { self.new.blown ≡ true → IsErr result }
    {
        if self.left == 0 {
            self.blown = true;
            count(&mut self.drives, &mut self.nvram, device, true);
            return Err(Failed);
        }
        self.left -= 1;
        self.inner.write(device, at, from)
    }

    fn sync(&mut self, device: Device) -> Result<(), Failed>
        requires { IsOf (fused_by (W.shelf self.old.inner) self.old.blown self.old.drives self.old.nvram) device }
        ensures device { (fused_by (W.shelf self.old.inner) self.old.blown self.old.drives self.old.nvram).honest → WasSynced result ((fused_by (W.shelf self.old.inner) self.old.blown self.old.drives self.old.nvram).disk device) ((fused_by (W.shelf self.new.inner) self.new.blown self.new.drives self.new.nvram).disk device) }
        ensures counts { WriteCounts result ((fused_by (W.shelf self.old.inner) self.old.blown self.old.drives self.old.nvram).disk device) ((fused_by (W.shelf self.new.inner) self.new.blown self.new.drives self.new.nvram).disk device) }
        ensures others { OthersStay device (fused_by (W.shelf self.old.inner) self.old.blown self.old.drives self.old.nvram) (fused_by (W.shelf self.new.inner) self.new.blown self.new.drives self.new.nvram) }
        ensures time { Elapses (fused_by (W.shelf self.old.inner) self.old.blown self.old.drives self.old.nvram) (fused_by (W.shelf self.new.inner) self.new.blown self.new.drives self.new.nvram) }
        ensures rest { W.shelf_rest self.old.inner self.new.inner × CutOff self.old.blown self.new.blown (self.new.inner ≡ self.old.inner) × (self.new.source_faults ≡ self.old.source_faults) × (self.new.sink_faults ≡ self.old.sink_faults) }
        // It counts down, and fails where nothing was left.
        ensures burns { Burns self.old.left self.old.blown self.new.left self.new.blown }
        ensures cut_off { self.new.blown ≡ true → IsErr result }
    {
        if self.left == 0 {
            self.blown = true;
            count(&mut self.drives, &mut self.nvram, device, true);
            return Err(Failed);
        }
        self.left -= 1;
        self.inner.sync(device)
    }
}

impl<W: World> Source for Fused<W> {
    ghost use Rattle.std.specs.Prelude.{refl};
    ghost use Rattle.std.proofs.Common.{◌∙◌};
    ghost use Rattle.world_mem.specs.Fuse.{fuse, fused_stream, SameFuse};
    ghost use Rattle.world_mem.specs.FuseLaws.{fuse_stays, fuse_then, within_then};

    ghost source = { λ f. fused_stream (W.source f.inner) f.source_faults };

    ghost source_rest = { λ a b. W.source_rest a.inner b.inner × SameFuse (fuse a.blown a.drives a.nvram) (fuse b.blown b.drives b.nvram) × (a.blown ≡ true → b.inner ≡ a.inner) × (b.sink_faults ≡ a.sink_faults) };

    ghost source_rest_stays = { record { reflexive = λ f. (W.source_rest_stays.reflexive f.inner, fuse_stays (fuse f.blown f.drives f.nvram), λ blown. refl, refl); transitive = λ a b c ab bc. (W.source_rest_stays.transitive a.inner b.inner c.inner ab.0 bc.0, fuse_then ab.1 bc.1, within_then ab.1.blown ab.2 bc.2, bc.3 ∙ ab.3) } };

    fn take(&mut self, into: &mut [u8]) -> Result<usize, Failed> {
        if self.blown {
            self.source_faults = self.source_faults.saturating_add(1);
            return Err(Failed);
        }
        self.inner.take(into)
    }
}

impl<W: World> Sink for Fused<W> {
    ghost use Rattle.std.specs.Prelude.{refl};
    ghost use Rattle.std.proofs.Common.{◌∙◌};
    ghost use Rattle.world_mem.specs.Fuse.{fuse, fused_stream, SameFuse};
    ghost use Rattle.world_mem.specs.FuseLaws.{fuse_stays, fuse_then, within_then};

    ghost sink = { λ f. fused_stream (W.sink f.inner) f.sink_faults };

    ghost sink_rest = { λ a b. W.sink_rest a.inner b.inner × SameFuse (fuse a.blown a.drives a.nvram) (fuse b.blown b.drives b.nvram) × (a.blown ≡ true → b.inner ≡ a.inner) × (b.source_faults ≡ a.source_faults) };

    ghost sink_rest_stays = { record { reflexive = λ f. (W.sink_rest_stays.reflexive f.inner, fuse_stays (fuse f.blown f.drives f.nvram), λ blown. refl, refl); transitive = λ a b c ab bc. (W.sink_rest_stays.transitive a.inner b.inner c.inner ab.0 bc.0, fuse_then ab.1 bc.1, within_then ab.1.blown ab.2 bc.2, bc.3 ∙ ab.3) } };

    fn give(&mut self, from: &[u8]) -> Result<usize, Failed> {
        if self.blown {
            self.sink_faults = self.sink_faults.saturating_add(1);
            return Err(Failed);
        }
        self.inner.give(from)
    }
}

impl<W: World> World for Fused<W> {
    ghost use Rattle.world_mem.specs.Fuse.{fuse};
    ghost use Rattle.world_mem.specs.FuseLaws.{fused_takes, fused_gives, fused_stays};

    ghost one_clock = { λ f h. W.one_clock f.inner h };

    ghost take_is_told = { λ a b rest h. W.take_is_told a.inner b.inner rest.0 h };

    ghost shelf_keeps_source = { λ a b rest. fused_stays a.source_faults b.source_faults (W.shelf_keeps_source a.inner b.inner rest.0) rest.2 };

    ghost shelf_keeps_sink = { λ a b rest. fused_stays a.sink_faults b.sink_faults (W.shelf_keeps_sink a.inner b.inner rest.0) rest.3 };

    ghost take_keeps_shelf = { λ a b rest. fused_takes W.shelf a.inner b.inner (fuse a.blown a.drives a.nvram) (fuse b.blown b.drives b.nvram) (W.is_shelf a.inner) (W.is_shelf b.inner) a.whole b.whole (W.take_keeps_shelf a.inner b.inner rest.0) rest.1 rest.2 };

    ghost take_keeps_sink = { λ a b rest. fused_stays a.sink_faults b.sink_faults (W.take_keeps_sink a.inner b.inner rest.0) rest.3 };

    ghost give_keeps_shelf = { λ a b rest. fused_gives W.shelf a.inner b.inner (fuse a.blown a.drives a.nvram) (fuse b.blown b.drives b.nvram) (W.is_shelf a.inner) (W.is_shelf b.inner) a.whole b.whole (W.give_keeps_shelf a.inner b.inner rest.0) rest.1 rest.2 };

    ghost give_keeps_source = { λ a b rest. fused_stays a.source_faults b.source_faults (W.give_keeps_source a.inner b.inner rest.0) rest.3 };
}
