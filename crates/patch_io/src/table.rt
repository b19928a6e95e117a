// Facts of one table, as facts of any table.
ghost use Rattle.std.specs.Prelude.{◌≡◌, ◌≢◌, ℕ, IfSome, IfNone};
ghost use Rattle.pur_base.specs.Facts.{table_tag};
ghost use Rattle.pur_base.specs.declared.facts.AnyFact.{AnyFact};
ghost use Rattle.fact_codec.specs.Fact.{Decodes};
ghost use Rattle.patch_io.specs.Tables.{HaveTag, HaveKey};

use fact_codec::{FACT_BYTES, read_address, read_fact};
use pur_base::{AddressFact, AnyFact, ElisionFact, Fact, MediumFact, ObjectFact, SegmentFact};

/// A fact of a table that patches hold.
pub trait TableFact: Fact + Drop {
    /// The fact as one of any table.
    ghost any: { Self → AnyFact };

    /// The tag of the table.
    ghost tag: { ℕ };

    /// The fact of this table that the bytes spell, or `None` where they spell none.
    fn read(text: &[u8; FACT_BYTES]) -> Option<Self>
        ensures some { IfSome result (λ f. Decodes text.now (any f)) }
        ensures none { IfNone result ((fact : AnyFact) → Decodes text.now fact → table_tag fact ≢ tag) };

    /// The fact as one of any table.
    fn to_any(&self) -> AnyFact
        ensures { result ≡ any self.now };

    ghost have_tag: { HaveTag any tag };

    ghost have_key: { HaveKey any Self.key };
}

impl TableFact for ObjectFact {
    ghost use Rattle.pur_base.specs.declared.facts.AnyFact.TheVariants as any_fact;
    ghost use Rattle.std.specs.Prelude.{refl};

    ghost any = { λ f. any_fact.Object f };

    ghost tag = { 1 };

    fn read(text: &[u8; FACT_BYTES]) -> Option<ObjectFact> {
        match read_fact(text) {
            Ok(AnyFact::Object(fact)) => Some(fact),
            _ => None,
        }
    }

    fn to_any(&self) -> AnyFact {
        AnyFact::Object(*self)
    }

    ghost have_tag = { λ f. refl };

    ghost have_key = { λ f. refl };
}

impl TableFact for MediumFact {
    ghost use Rattle.pur_base.specs.declared.facts.AnyFact.TheVariants as any_fact;
    ghost use Rattle.std.specs.Prelude.{refl};

    ghost any = { λ f. any_fact.Medium f };

    ghost tag = { 2 };

    fn read(text: &[u8; FACT_BYTES]) -> Option<MediumFact> {
        match read_fact(text) {
            Ok(AnyFact::Medium(fact)) => Some(fact),
            _ => None,
        }
    }

    fn to_any(&self) -> AnyFact {
        AnyFact::Medium(*self)
    }

    ghost have_tag = { λ f. refl };

    ghost have_key = { λ f. refl };
}

impl TableFact for AddressFact {
    ghost use Rattle.pur_base.specs.declared.facts.AnyFact.TheVariants as any_fact;
    ghost use Rattle.std.specs.Prelude.{refl};

    ghost any = { λ f. any_fact.Address f };

    ghost tag = { 3 };

    fn read(text: &[u8; FACT_BYTES]) -> Option<AddressFact> {
        match read_address(text) {
            Ok(fact) => Some(fact),
            Err(_) => None,
        }
    }

    fn to_any(&self) -> AnyFact {
        AnyFact::Address(*self)
    }

    ghost have_tag = { λ f. refl };

    ghost have_key = { λ f. refl };
}

impl TableFact for SegmentFact {
    ghost use Rattle.pur_base.specs.declared.facts.AnyFact.TheVariants as any_fact;
    ghost use Rattle.std.specs.Prelude.{refl};

    ghost any = { λ f. any_fact.Segment f };

    ghost tag = { 4 };

    fn read(text: &[u8; FACT_BYTES]) -> Option<SegmentFact> {
        match read_fact(text) {
            Ok(AnyFact::Segment(fact)) => Some(fact),
            _ => None,
        }
    }

    fn to_any(&self) -> AnyFact {
        AnyFact::Segment(*self)
    }

    ghost have_tag = { λ f. refl };

    ghost have_key = { λ f. refl };
}

impl TableFact for ElisionFact {
    ghost use Rattle.pur_base.specs.declared.facts.AnyFact.TheVariants as any_fact;
    ghost use Rattle.std.specs.Prelude.{refl};

    ghost any = { λ f. any_fact.Elision f };

    ghost tag = { 5 };

    fn read(text: &[u8; FACT_BYTES]) -> Option<ElisionFact> {
        match read_fact(text) {
            Ok(AnyFact::Elision(fact)) => Some(fact),
            _ => None,
        }
    }

    fn to_any(&self) -> AnyFact {
        AnyFact::Elision(*self)
    }

    ghost have_tag = { λ f. refl };

    ghost have_key = { λ f. refl };
}
