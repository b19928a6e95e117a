ghost use Rattle.std.specs.Prelude.{ℕ, List};
ghost use Rattle.pur_base.specs.Commands.{Accepts};
ghost use Rattle.pur_base.specs.Plain.{Array};
ghost use Rattle.pur_base.specs.declared.request.Request.{Request};
ghost use Rattle.memory_spec.specs.Memory.{Contents, ReadsAs};
ghost use Rattle.command_spec.specs.Asked.{command_of, IsAllowed};
ghost use Rattle.command_spec.specs.Kept.{Kept, IsKept};
ghost use Rattle.command_spec.specs.Lawful.{IsLawful};

/// What the plain array accepts is allowed in the memory that reads as it, and what is allowed there the array accepts.
pub fn laws_of_requests()
    ensures allowed { (contents : Contents) (k : Kept) (array : Array) (r : Request) (sectors : List (List ℕ)) → IsKept k → ReadsAs contents k.memory array
        → IsLawful r → Accepts array (command_of r sectors) → IsAllowed k.objects r }
    ensures accepted { (contents : Contents) (k : Kept) (array : Array) (r : Request) (sectors : List (List ℕ)) → IsKept k → ReadsAs contents k.memory array
        → IsAllowed k.objects r → Accepts array (command_of r sectors) }
{}
