// The refusals of all layers as answers: an impl for each, so that `?` answers it; a trait of them would ask as many.
ghost use Rattle.std.specs.Prelude.{◌≡◌};
ghost use Rattle.yungaslid.specs.Answers.{refused_names, refused_tape, refused_text, refused_judging, refused_check, unprinted};

use crate::answer::Answer;
use checker::refusal::CheckRefusal;
use lexer::names::NamesRefusal;
use meaning::refusal::Refusal;
use recording::refusal::TapeRefusal;
use std::fmt;
use text::fault::Fault;

impl From<NamesRefusal> for Answer {
    ghost from_gives = { λ e a. a ≡ refused_names e };

    fn from(refusal: NamesRefusal) -> Answer {
        Answer::refused(refusal.number(), None)
    }
}

impl From<TapeRefusal> for Answer {
    ghost from_gives = { λ e a. a ≡ refused_tape e };

    fn from(refusal: TapeRefusal) -> Answer {
        Answer::refused(refusal.number(), None)
    }
}

impl From<Fault> for Answer {
    ghost from_gives = { λ f a. a ≡ refused_text f };

    fn from(fault: Fault) -> Answer {
        Answer::refused(fault.number(), Some(fault.place()))
    }
}

impl From<Refusal> for Answer {
    ghost from_gives = { λ e a. a ≡ refused_judging e };

    fn from(refusal: Refusal) -> Answer {
        Answer::refused(refusal.number(), None)
    }
}

impl From<CheckRefusal> for Answer {
    ghost from_gives = { λ e a. a ≡ refused_check e };

    fn from(refusal: CheckRefusal) -> Answer {
        Answer::refused(refusal.number(), None)
    }
}

impl From<fmt::Error> for Answer {
    ghost from_gives = { λ _ a. a ≡ unprinted };

    fn from(_: fmt::Error) -> Answer {
        Answer::refused(20, None)
    }
}
