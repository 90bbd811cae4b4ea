ghost use Rattle.std.specs.Prelude.{◌≡◌};
ghost use Rattle.recording.specs.Word.{Answers, Word};

use crate::truth::Truth;

/// What is judged: signals that have a value at every sample, which from the end of the stem on come again with each
/// cycle. A maker of a further recording gives the endless word that it means, and shows that its answers are as meant.
pub trait Recording {
    /// The kind of its values.
    type Truth: Truth;

    // The endless word that the recording means.
    ghost word: { Self → Word Self.Truth };

    /// The signal count, 1 to 32.
    fn signals(&self) -> u32
        ensures { result ≡ (word self.now).signals };

    /// The samples of the stem, 0 to 256.
    fn stem(&self) -> u32
        ensures { result ≡ (word self.now).stem };

    /// The samples of a cycle, 1 to 64.
    fn cycle(&self) -> u32
        ensures { result ≡ (word self.now).cycle };

    /// The value of a signal at a sample; none exactly at or above the signal count.
    fn value(&self, signal: u32, sample: u32) -> Option<Self::Truth>
        ensures { Answers Self.Truth.Truth.means (word self.now) signal sample result };
}
