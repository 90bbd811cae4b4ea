// Calls on one sheet, one after another.
ghost use Rattle.std.specs.Prelude.{◌≡◌, length, take, drop};
ghost use Rattle.machine.specs.Machines.{tables};
ghost use Rattle.run.specs.Histories.{ledger_of, after};
ghost use Rattle.run.specs.Law.{Throughout};
ghost use Rattle.run.specs.Story.{heard, lent, Story};

use crate::answer::Answer;
use crate::call::Call;
use crate::form::Sheet;
use crate::step::perform;
use machine::place::Machine;
use recording::recording::Recording;
use recording::truth::{Truth, TwoValued};

/// Makes the calls one after another on a sheet, notes what each answers, and hands the sheet back: as many calls as
/// there are both calls and places for answers; further answers stay. A history with other recordings goes on from the
/// sheet that is handed back.
///
/// From the ledger of the sheet on, which for a new one is the empty draft: the sheet ends as the ledger fed with these
/// calls does; each call is answered, and leaves of all that is lent, what `Story` tells of it by the ledger fed with the
/// calls before; and before the first call and after each, where the ledger is sealed, the law holds of its lines.
pub fn carry_out<R: Recording, B: Recording>(
    mut sheet: Sheet,
    calls: &[Call],
    judged: &[R],
    written: &[B],
    machine: &mut Machine,
    cells: &mut [R::Truth],
    bits: &mut [B::Truth],
    rows: &mut [u64],
    answers: &mut [Answer<R::Truth, B::Truth>],
) -> Sheet
where
    B::Truth: TwoValued,
    ensures ledger { ledger_of result ≡ after (ledger_of sheet) (take (length answers.old) calls.now) }
    ensures story { Story (heard R.Truth.Truth.kind R.Truth.Truth.means R.Recording.word judged.now) (heard B.Truth.Truth.kind B.Truth.Truth.means B.Recording.word written.now) (ledger_of sheet) (lent (tables machine.old) cells.old bits.old rows.old) (take (length answers.old) calls.now) (take (length calls.now) answers.new) (lent (tables machine.new) cells.new bits.new rows.new) }
    ensures law { Throughout R.Truth.Truth.kind B.Truth.Truth.kind (ledger_of sheet) (take (length answers.old) calls.now) }
    ensures further { drop (length calls.now) answers.new ≡ drop (length calls.now) answers.old }
{
    // the question's contract: the kind has no third value
    let _ = B::Truth::no().is_yes();
    // no zip of the two: nothing is known of what a zip with `iter_mut` writes
    for (i, answer) in answers.iter_mut().enumerate() {
        let Some(call) = calls.get(i) else {
            break;
        };
        let stepped = perform(sheet, *call, judged, written, machine, cells, bits, rows);
        sheet = stepped.sheet;
        *answer = stepped.answer;
    }
    sheet
}
