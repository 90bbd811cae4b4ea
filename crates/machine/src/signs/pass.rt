// The downward pass: the rule has plus, and each line hands its signs on.
ghost use Rattle.std.specs.Prelude.{◌≡◌, ℕ, ◌<◌, ◌&&◌, ◌||◌, length, ◌==◌};
ghost use Rattle.sheet.specs.Sheets.{sealed_lines};
ghost use Rattle.sheet.specs.Table.{line as line_at, Lower};
ghost use Rattle.meaning.specs.Sheet.{rule_of};
ghost use Rattle.machine.specs.Signs.{Sign};
ghost use Rattle.machine.specs.Translation.{hands, has};
ghost use Rattle.machine.specs.Working.{told, sign_in};

use crate::signs::Signs;
use sheet::line::Line;
use sheet::sealed::Sealed;

// Line `to` gets more signs beside those that it has.
fn give(signs: &mut [Signs; 64], to: u8, more: Signs)
    requires { to < 64 }
    ensures { (a : ℕ) (s : Sign) → sign_in signs.new a s ≡ (sign_in signs.old a s || (a == to && told more s)) }
{
    signs[to as usize] = signs[to as usize] | more;
}

// A line hands its own signs to its operands; a not turns them.
fn hand_on(line: Line, own: Signs, signs: &mut [Signs; 64])
    requires { Lower 64 line }
    ensures { (a : ℕ) (s : Sign) → sign_in signs.new a s ≡ (sign_in signs.old a s || hands line (told own) a s) }
{
    match line {
        Line::Const(_) | Line::Signal(_) => {}
        Line::Not(a) => give(signs, a, !own),
        Line::Next(a) | Line::Previous(a) | Line::WeakPrevious(a) => give(signs, a, own),
        Line::And(a, b)
        | Line::Or(a, b)
        | Line::Until(a, b)
        | Line::WeakUntil(a, b)
        | Line::Since(a, b)
        | Line::WeakSince(a, b) => {
            give(signs, a, own);
            give(signs, b, own);
        }
    }
}

/// The signs of each line of a sealed sheet; past the last there are none.
pub fn signs_in(sheet: &Sealed) -> [Signs; 64]
    ensures { (a : ℕ) (s : Sign) → sign_in result a s ≡ has (line_at (sealed_lines sheet.now)) (length (sealed_lines sheet.now)) (rule_of (sealed_lines sheet.now)) a s }
{
    let lines = sheet.lines();
    let mut signs = [Signs::default(); 64];
    signs[lines.len() - 1] = Signs {
        plus: true,
        minus: false,
    };
    for (k, &line) in lines.iter().enumerate().rev() {
        hand_on(line, signs[k], &mut signs);
    }
    signs
}
