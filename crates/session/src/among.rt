// Values of either built kind among no, lost and yes.
ghost use Rattle.std.specs.Prelude.{◌≡◌};
ghost use Rattle.recording.specs.declared.truth.Ternary.{Ternary as Three};
ghost use Rattle.session.specs.Among.{raised};

use recording::truth::Ternary;

/// Values that are among no, lost and yes.
pub trait AmongThree: Copy {
    // Which of the three a value is.
    ghost three: { Self → Three };

    fn as_ternary(self) -> Ternary
        ensures { result ≡ three self };
}

impl AmongThree for bool {
    ghost three = { raised };

    fn as_ternary(self) -> Ternary {
        if self { Ternary::Yes } else { Ternary::No }
    }
}

impl AmongThree for Ternary {
    ghost three = { λ p. p };

    fn as_ternary(self) -> Ternary {
        self
    }
}
