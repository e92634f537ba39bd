// The number of a refusal.
ghost use Rattle.std.specs.Prelude.{◌≡◌};
ghost use Rattle.refusal.specs.declared.kinds.Refusal.TheVariants.{Denied};
ghost use Rattle.refusal.specs.Numbers.{number_of, reason_number};

use super::kinds::{Denial, Reason, Refusal};

// The number of a clash, which is no reason's.
pub const CLASH: u32 = 34;

impl Reason {
    pub fn number(self) -> u32
        ensures { result ≡ reason_number self }
    {
        self as u32
    }
}

impl Denial {
    pub fn number(self) -> u32
        ensures { result ≡ number_of (Denied self) }
    {
        match self {
            Denial::Because(reason) => reason.number(),
            Denial::Clash(_) => CLASH,
        }
    }
}

impl Refusal {
    pub fn number(self) -> u32
        ensures { result ≡ number_of self }
    {
        match self {
            Refusal::Making(fault) => fault as u32,
            Refusal::Call(fault) => fault as u32,
            Refusal::Denied(denial) => denial.number(),
            Refusal::Reading(fault) => fault as u32,
            Refusal::Writing(fault) => fault as u32,
        }
    }
}
