// Whether a recording has the signals that lines, or other things, name.
ghost use Rattle.std.specs.Prelude.{ℕ, Decides};
ghost use Rattle.std.specs.List.{All};
ghost use Rattle.meaning.specs.Naming.{NamesExactly};
ghost use Rattle.sheet.specs.Table.{Named};

use recording::recording::Recording;
use sheet::line::Line;

/// What may name a signal.
pub trait NamesSignal: Copy {
    // That the signal which a value names, if it names one, is below a count.
    ghost fits: { ℕ → Self → Type 0 };

    /// The signal that it names, if it names one.
    fn signal(self) -> Option<u8>
        ensures { NamesExactly fits self result };
}

impl NamesSignal for Line {
    ghost fits = { Named };

    fn signal(self) -> Option<u8> {
        match self {
            Line::Signal(signal) => Some(signal),
            _ => None,
        }
    }
}

// Whether a recording has the signal of an item that names one. The recording itself is asked.
fn has_signal<N: NamesSignal, R: Recording>(item: N, recording: &R) -> bool
    ensures { Decides result (N.fits (R.word recording.now).signals item) }
{
    item.signal()
        .is_none_or(|signal| recording.value(u32::from(signal), 0).is_some())
}

/// Whether a recording has the signal of each item that names one.
pub fn has_signals<N: NamesSignal, R: Recording>(items: &[N], recording: &R) -> bool
    ensures { Decides result (All (N.fits (R.word recording.now).signals) items.now) }
{
    items.iter().all(|&item| has_signal(item, recording))
}
