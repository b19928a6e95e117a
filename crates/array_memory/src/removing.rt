// Objects that a command destroys.
ghost use Rattle.std.specs.Prelude.{◌≡◌, ◌≢◌, ◌≤◌, Contains};
ghost use Rattle.pur_base.specs.declared.facts.ElisionFact.{ElisionFact};
ghost use Rattle.pur_base.specs.declared.facts.ObjectFact.{ObjectFact};
ghost use Rattle.pur_base.specs.declared.request.Table.{Table};
ghost use Rattle.pur_base.specs.declared.request.Table.TheVariants as table;
ghost use Rattle.elision.specs.Ranges.{ranges_of};
ghost use Rattle.command_spec.specs.Removing.{HasRemoved};
ghost use Rattle.command_spec.specs.Asked.{AreLeft, HasObject};
ghost use Rattle.command_spec.specs.Kept.{HasSamePatches};
ghost use Rattle.command_spec.specs.Room.{TakesOnly};

use crate::loading::are_apart;
use crate::memory::Memory;
use command_spec::NOTHING;
use pur_base::{Name, Seq, Table};
use table_plan::elision_of;

impl Memory {
    /// Elides an object's id, so that it isn't visible any more. Its mediums stay until a checkpoint finds that nothing reaches them.
    pub(crate) fn destroy(&mut self, name: &Name)
        requires there { HasObject self.old.objects name.now }
        requires numbers { AreLeft self.old.memory.next }
        requires room { 1 ≤ self.old.memory.tables.elisions.room }
        requires ranges { 1 ≤ self.old.elided.object_room }
        ensures removed { (x : ObjectFact) → Contains self.old.objects x → x.name ≡ name.now → (f : ElisionFact) × HasRemoved self.old.memory self.new.memory x f }
        ensures patches { HasSamePatches self.old.memory.tables self.new.memory.tables }
        ensures segments { self.new.segments ≡ self.old.segments }
        ensures elided { (t : Table) → t ≢ table.Object → ranges_of self.new.elided t ≡ ranges_of self.old.elided t }
        ensures room_left { TakesOnly self.old self.new (record NOTHING { elisions = 1; ranges = 1 }) }
    {
        let object = self.object_of(name);
        if self.elided.elide(Table::Object, object.object.0).is_err() {
            unreachable!()
        }
        // Read for it alone that the ranges still lie apart.
        are_apart(&self.elided);
        let elision = elision_of(
            &self.elided,
            Table::Object,
            object.object.0,
            Seq(self.next.sequence),
        );
        self.elisions.layers();
        if self.elisions.insert_run(&[elision]).is_err() {
            unreachable!()
        }
        self.elisions.layers();
        self.objects.remove(object.object);
        self.next.sequence += 1;
    }
}
