// What comes of a list of run calls.
ghost use Rattle.std.specs.Prelude.{◌≡◌};
ghost use Rattle.history.specs.declared.played.Unplayed.TheVariants.{NoMemory, Refused};

use refusal::kinds::CallFault;
use run::call::Answer;
use run::run::Run;
use std::alloc::AllocError;

#[derive(Drop)]
pub struct Played {
    pub run: Run,
    // what each call answered
    pub answers: Vec<Answer>,
}

// Why no call of the list was made.
#[derive(Clone, Copy)]
pub enum Unplayed {
    // no run could be opened
    Refused(CallFault),
    // there is no memory for the answers
    NoMemory,
}

impl From<CallFault> for Unplayed {
    ghost from_gives = { λ fault why. why ≡ Refused fault };

    fn from(fault: CallFault) -> Unplayed {
        Unplayed::Refused(fault)
    }
}

impl From<AllocError> for Unplayed {
    ghost from_gives = { λ _ why. why ≡ NoMemory };

    fn from(_error: AllocError) -> Unplayed {
        Unplayed::NoMemory
    }
}
