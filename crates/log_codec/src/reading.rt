ghost use Rattle.std.specs.Prelude.{◌≡◌, ◌↔◌, Ok, IsErr, IfOk};
ghost use Rattle.log_codec.specs.Head.{Decodes};
ghost use Rattle.log_codec.specs.declared.head.Head.{Head};

use crate::fields::Fields;
use crate::head::Head;
use pur_base::Sector;

/// The sector spells no head.
#[derive(Clone, Copy, PartialEq, Eq)]
pub struct BadHead;

/// The head that the sector spells, or `BadHead` where it spells none.
pub fn read_head(sector: &Sector) -> Result<Head, BadHead>
    // What is read is a head, and spelled so.
    ensures ok { IfOk result (λ head. Decodes sector.now head) }
    // What is spelled so is read.
    ensures complete { (head : Head) → Decodes sector.now head → result ≡ Ok head }
    ensures err { IsErr result ↔ ((head : Head) → ¬ Decodes sector.now head) }
{
    let fields = Fields::of(sector);
    if !fields.is_frame() {
        return Err(BadHead);
    }
    let Some(command) = fields.parts().command() else {
        return Err(BadHead);
    };
    Ok(Head {
        number: fields.number,
        command,
    })
}
