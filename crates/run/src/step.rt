// One call on a sheet.
ghost use Rattle.std.specs.Prelude.{◌≡◌};
ghost use Rattle.machine.specs.Machines.{tables};
ghost use Rattle.run.specs.Histories.{ledger_of, step as next_ledger};
ghost use Rattle.run.specs.Law.{WhileSealed};
ghost use Rattle.run.specs.Story.{heard, lent, Tells};

use crate::answer::Answer;
use crate::by_form::{on_draft, on_sealed};
use crate::call::Call;
use crate::form::Sheet;
use machine::place::Machine;
use recording::recording::Recording;
use recording::truth::{Truth, TwoValued};

/// A sheet after a call, and what the call answered.
#[derive(Drop)]
pub struct Stepped<V, W> {
    pub sheet: Sheet,
    pub answer: Answer<V, W>,
}

// What is lent comes as parameters: of a struct with `&mut` fields each contract would also have to say that every field
// keeps its reference.
/// Makes one call on a sheet, where its form has it. The sheet changes as its ledger does; the call answers, and leaves
/// of all that is lent, what `Tells` says; and the law holds while the sheet is sealed.
pub fn perform<R: Recording, B: Recording>(
    sheet: Sheet,
    call: Call,
    judged: &[R],
    written: &[B],
    machine: &mut Machine,
    cells: &mut [R::Truth],
    bits: &mut [B::Truth],
    rows: &mut [u64],
) -> Stepped<R::Truth, B::Truth>
where
    B::Truth: TwoValued,
    ensures ledger { ledger_of result.sheet ≡ next_ledger (ledger_of sheet) call }
    ensures tells { Tells (heard R.Truth.Truth.kind R.Truth.Truth.means R.Recording.word judged.now) (heard B.Truth.Truth.kind B.Truth.Truth.means B.Recording.word written.now) (ledger_of sheet).form (ledger_of sheet) call result.answer (lent (tables machine.old) cells.old bits.old rows.old) (lent (tables machine.new) cells.new bits.new rows.new) }
    ensures before { WhileSealed R.Truth.Truth.kind B.Truth.Truth.kind (ledger_of sheet) }
    ensures after { WhileSealed R.Truth.Truth.kind B.Truth.Truth.kind (ledger_of result.sheet) }
{
    // the question's contract: the kind has no third value
    let _ = B::Truth::no().is_yes();
    match sheet {
        Sheet::Open(draft) => on_draft(draft, call),
        Sheet::Shut(sealed) => {
            on_sealed(sealed, call, judged, written, machine, cells, bits, rows)
        }
    }
}
