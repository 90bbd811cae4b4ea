// What finitely many rows tell of the endless run that they stand for.
ghost use Rattle.laws.specs.Laws.{CheckDecides};

use recording::truth::Truth;

/// Finitely many rows tell whether the endless run that they stand for is accepting.
pub fn check_decides<T: Truth>()
    ensures { CheckDecides T.Truth.kind }
{}
