// Worked examples, proved from the meanings alone.
#![tactic(auto)]

ghost use Rattle.examples.specs.Worked.{WorkedExamples};

use recording::truth::{Truth, TwoValued};

/// The list of worked examples, for any two-valued kind.
pub fn worked_examples<B: TwoValued>()
    ensures { WorkedExamples B.Truth.kind }
{
    let _ = B::no().is_yes();
}
