// Fills a work line by line.
ghost use Rattle.std.specs.Prelude.{◌≡◌, ◌+◌, ◌-◌, ◌<◌, [], ◌∷◌, length};
ghost use Rattle.sheet.specs.Table.{Lower};
ghost use Rattle.machine.specs.declared.gate.Gate.TheVariants as gates;
ghost use Rattle.machine.specs.declared.gate.Variable.TheVariants as variables;
ghost use Rattle.machine.specs.Translation.{size, gates_of, variables_of, pairs_of};
ghost use Rattle.machine.specs.Working.{IsEmpty, extended, with_line, place_in, own_place, Room, HasRoom, told};

use crate::gate::{Gate, Pair, Variable};
use crate::signs::Signs;
use crate::work::Work;
use crate::work::table::Table;
use sheet::line::Line;

// How many gates a line makes.
fn size_of(line: Line) -> usize
    ensures { result ≡ size line }
{
    if matches!(line, Line::Since(_, _) | Line::WeakSince(_, _)) {
        3
    } else {
        1
    }
}

impl Work {
    pub(crate) fn new() -> Work
        ensures { IsEmpty result }
    {
        Work {
            gates: Table::new(Gate::Const(false)),
            variables: Table::new(Variable::Next(0)),
            pairs: Table::new(Pair { from: 0, to: 0 }),
            places: [0; 64],
        }
    }

    // The gate of a line.
    fn place_of(&self, line: u8) -> u8
        requires { line < 64 }
        ensures { result ≡ place_in self.now line }
    {
        self.places[line as usize]
    }

    // The gates of two lines.
    fn places_of(&self, left: u8, right: u8) -> (u8, u8)
        requires { (left < 64) × (right < 64) }
        ensures { result ≡ (place_in self.now left, place_in self.now right) }
    {
        (self.place_of(left), self.place_of(right))
    }

    // A new variable and its var gate.
    fn put_held(&mut self, variable: Variable)
        requires { HasRoom self.old }
        ensures { self.new ≡ extended (gates.Var (length self.old.variables) ∷ []) (variable ∷ []) [] self.old }
    {
        let name = self.variables.push(variable);
        self.gates.push(Gate::Var(name));
    }

    // The three gates and the variable of a since: left and right are gates.
    fn put_since(&mut self, left: u8, right: u8, start: bool)
        requires { HasRoom self.old }
        ensures { self.new ≡ extended (gates.Var (length self.old.variables) ∷ gates.And left (length self.old.gates) ∷ gates.Or right (length self.old.gates + 1) ∷ []) (variables.Back (length self.old.gates + 2) start ∷ []) [] self.old }
    {
        let name = self.variables.len() as u8;
        let before = self.gates.push(Gate::Var(name));
        let both = self.gates.push(Gate::And(left, before));
        let own = self.gates.push(Gate::Or(right, both));
        self.variables.push(Variable::Back(own, start));
    }

    // The gates, the variable and the pair of a used line, whose own gate is the last that it makes.
    fn put_used(&mut self, line: Line, own: u8, signs: Signs)
        requires { (Lower 64 line) × ((HasRoom self.old) × (own ≡ own_place line self.old)) }
        ensures { self.new ≡ extended (gates_of (place_in self.old) (length self.old.gates) (length self.old.variables) line) (variables_of (place_in self.old) own line) (pairs_of (place_in self.old) own (told signs) line) self.old }
    {
        match line {
            Line::Const(bit) => {
                self.gates.push(Gate::Const(bit));
            }
            Line::Signal(signal) => {
                self.gates.push(Gate::Signal(signal));
            }
            Line::Not(a) => {
                let a = self.place_of(a);
                self.gates.push(Gate::Not(a));
            }
            Line::And(left, right) => {
                let (left, right) = self.places_of(left, right);
                self.gates.push(Gate::And(left, right));
            }
            Line::Or(left, right) => {
                let (left, right) = self.places_of(left, right);
                self.gates.push(Gate::Or(left, right));
            }
            Line::Next(a) => {
                let a = self.place_of(a);
                self.put_held(Variable::Next(a));
            }
            Line::Until(left, right) => {
                let (left, right) = self.places_of(left, right);
                self.put_held(Variable::Until(left, right));
                if signs.plus {
                    self.pairs.push(Pair {
                        from: own,
                        to: right,
                    });
                }
            }
            Line::WeakUntil(left, right) => {
                let (left, right) = self.places_of(left, right);
                self.put_held(Variable::Until(left, right));
                if signs.minus {
                    self.pairs.push(Pair {
                        from: left,
                        to: own,
                    });
                }
            }
            Line::Previous(a) => {
                let a = self.place_of(a);
                self.put_held(Variable::Back(a, false));
            }
            Line::WeakPrevious(a) => {
                let a = self.place_of(a);
                self.put_held(Variable::Back(a, true));
            }
            Line::Since(left, right) => {
                let (left, right) = self.places_of(left, right);
                self.put_since(left, right, false);
            }
            Line::WeakSince(left, right) => {
                let (left, right) = self.places_of(left, right);
                self.put_since(left, right, true);
            }
        }
    }

    // Line k, used or not.
    pub(crate) fn put_line(&mut self, k: usize, line: Line, signs: Signs)
        requires { (k < 64) × ((Lower k line) × (Room k self.old)) }
        ensures { self.new ≡ with_line k (told signs) line self.old }
    {
        let own = (self.gates.len() + (size_of(line) - 1)) as u8;
        if signs.is_used() {
            self.put_used(line, own, signs);
        }
        self.places[k] = own;
    }
}
