ghost use Rattle.std.specs.Prelude.{◌↔◌, Contains};
ghost use Rattle.pur_base.specs.declared.ids.MediumId.{MediumId};
ghost use Rattle.pur_base.specs.Says.{Ascends};
ghost use Rattle.medium_table.specs.Reaching.{id_of_medium};

use pur_base::MediumId;

/// Puts ids in order, and leaves each once.
pub fn put_in_order(ids: &mut Vec<MediumId>)
    ensures ascends { Ascends id_of_medium ids.new.items }
    ensures ids { (m : MediumId) → Contains ids.new.items m ↔ Contains ids.old.items m }
{
    ids.sort_unstable_by_key(|id| id.0);
    ids.dedup_by_key(|id| id.0);
}
