// A new machine, and the tables of any. Each reader says that the tables are sound: it is the machine's own fact, and a
// caller knows it by what it reads first.
ghost use Rattle.std.specs.Prelude.{◌≡◌};
ghost use Rattle.machine.specs.Machines.{tables};
ghost use Rattle.machine.specs.Tables.{IsSound, fresh};

use crate::gate::{Gate, Pair, Variable};
use crate::place::Machine;

impl Machine {
    /// Gate 0, constant 0, is the root.
    pub fn new() -> Machine
        ensures { tables result ≡ fresh }
    {
        Machine {
            gates: [Gate::Const(false); 192],
            gate_count: 1,
            variables: [Variable::Next(0); 64],
            variable_count: 0,
            pairs: [Pair { from: 0, to: 0 }; 64],
            pair_count: 0,
            root: 0,
        }
    }

    /// The gates, by their numbers.
    pub fn gates(&self) -> &[Gate]
        ensures are { result.now ≡ (tables self.now).gates }
        ensures sound { IsSound (tables self.now) }
    {
        &self.gates[0..self.gate_count]
    }

    /// The state variables, by their numbers.
    pub fn variables(&self) -> &[Variable]
        ensures are { result.now ≡ (tables self.now).variables }
        ensures sound { IsSound (tables self.now) }
    {
        &self.variables[0..self.variable_count]
    }

    /// The fairness pairs.
    pub fn pairs(&self) -> &[Pair]
        ensures are { result.now ≡ (tables self.now).pairs }
        ensures sound { IsSound (tables self.now) }
    {
        &self.pairs[0..self.pair_count]
    }

    /// The number of the root gate.
    pub fn root(&self) -> u8
        ensures is { result ≡ (tables self.now).root }
        ensures sound { IsSound (tables self.now) }
    {
        self.root
    }
}
