// Laws of the valuation, for every truth kind.
ghost use Rattle.meaning.specs.Logic.{ReadsAsLogic};
ghost use Rattle.meaning.specs.Theorems.{Exists, Repeats, Unique};

use recording::truth::{Truth, TwoValued};

/// Every sheet has a valuation on every word that has its signals.
pub fn has_valuation<T: Truth>()
    ensures { Exists T.kind }
{}

/// A sheet has no two valuations on a word.
pub fn one_valuation<T: Truth>()
    ensures { Unique T.kind }
{}

/// From the stem on, and a cycle for each line up to it that looks back, the values of a line repeat.
pub fn lines_repeat<T: Truth>()
    ensures { Repeats T.kind }
{}

/// At a two-valued kind each operator is what temporal logic with past says of it.
pub fn reads_as_logic<T: TwoValued>()
    ensures { ReadsAsLogic T.Truth.kind }
{
    let _ = T::no().is_yes();
}
