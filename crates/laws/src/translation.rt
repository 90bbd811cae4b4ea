// The laws of the translation.
ghost use Rattle.laws.specs.Laws.{Between, Exact, Filling, WrittenRun};

use recording::truth::{Truth, TwoValued};

/// The translation of a sheet has an accepting run exactly when the rule holds at sample 0.
pub fn exact<B: TwoValued>()
    ensures { Exact B.Truth.kind }
{
    let _ = B::no().is_yes();
}

/// In every accepting run, and at every position, the gate of a line with plus is at most the line's value, and that of
/// a line with minus at least.
pub fn between<B: TwoValued>()
    ensures { Between B.Truth.kind }
{
    let _ = B::no().is_yes();
}

/// The rows that show the lines' values are a run, and accepting exactly when the rule holds at sample 0.
pub fn written_run<B: TwoValued>()
    ensures { WrittenRun B.Truth.kind }
{
    let _ = B::no().is_yes();
}

/// What a three-valued word says of a line, unless it is lost, every word that fills it in says too.
pub fn filling<T: Truth>()
    ensures { Filling T.Truth.kind }
{}
