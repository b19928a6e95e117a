ghost use Rattle.std.specs.Prelude.{◌↔◌};
ghost use Rattle.pur_base.specs.Devices.{Geometry};
ghost use Rattle.pur_base.specs.declared.request.Table.{Table};
ghost use Rattle.array_spec.specs.Sound.{AreSound};
ghost use Rattle.boot_codec.specs.declared.record.BootRecord.{BootRecord};
ghost use Rattle.loaded_tables.specs.declared.tables.LoadedTables.{LoadedTables};
ghost use Rattle.loaded_tables.specs.Loaded.{facts_in, patches_in, AreNamed};
ghost use Rattle.table_soundness.specs.Faults.{AreNumbersOf, IsFault, IsTableSound};

/// Tables are sound where each is sound by itself and its numbers suit those before it. Where one is at fault they aren't.
pub fn laws_of_soundness()
    ensures parts { (shelf : Geometry) (boot : BootRecord) (tables : LoadedTables) → AreNamed boot tables
        → AreSound shelf boot (patches_in tables) ↔ (((t : Table) → IsTableSound shelf boot (facts_in tables) t) × ((t : Table) → AreNumbersOf boot.next.sequence tables t)) }
    ensures fault { (shelf : Geometry) (boot : BootRecord) (tables : LoadedTables) (t : Table) → AreNamed boot tables → IsFault shelf boot tables t → AreSound shelf boot (patches_in tables) → ⊥ }
{}
