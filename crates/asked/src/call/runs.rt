// A script without the calls that write runs out.
ghost use Rattle.std.specs.Prelude.{◌≡◌};
ghost use Rattle.asked.specs.Runs.{without_runs as those_without};

use crate::call::{Call, Verb};

/// The call, unless it writes a run out or lends rows for that.
pub fn without_runs(call: Call) -> Option<Call>
    ensures { result ≡ those_without call }
{
    match call.verb() {
        Verb::Rows | Verb::Run => None,
        _ => Some(call),
    }
}
