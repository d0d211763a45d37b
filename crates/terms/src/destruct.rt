// Op 8: a structure is taken apart, its arguments into registers.

ghost use Rattle.std.specs.Prelude.{◌≡◌};
ghost use Rattle.words.specs.Answers.{told_done};
ghost use Rattle.terms.specs.Destruct.{destruct_answer, destruct_tables};

use crate::arguments::Arguments;
use crate::deref::deref_register;
use machine::Found;
use store::View;
use words::{Cell, Refusal};

// The term in register a is followed. Of a structure of this functor and arity the arguments go to the registers from d on.
#[tactic(auto, unfolding(crate::specs::Destruct::destruct_answer, crate::specs::Destruct::destruct_tables))]
pub fn destruct(
    view: &View<'_>,
    tables: &mut [u64],
    d: u8,
    a: u8,
    functor: u16,
    arity: u8,
) -> Result<(), Refusal>
    ensures answer { told_done result ≡ destruct_answer view.now.words.now tables.old view.now.turned.now d a functor arity }
    ensures tables { tables.new ≡ destruct_tables view.now.words.now tables.old view.now.turned.now d a functor arity }
{
    let arguments = Arguments::of(d, arity).ok_or(Refusal::NoStep)?;
    let Found::At(r, c) = deref_register(view, tables, a) else {
        return Err(Refusal::Dead);
    };
    match c {
        Cell::Unbound => Err(Refusal::Unbound),
        Cell::Head {
            functor: f,
            arity: n,
        } if functor == f && arity == n => {
            arguments.take(view, tables, r.address);
            Ok(())
        }
        Cell::Int(_) | Cell::Head { .. } => Err(Refusal::Differ),
        Cell::Bound(_) | Cell::Argument(_) => Err(Refusal::Dead),
    }
}
