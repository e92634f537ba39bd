// From the fault of a place to a refusal, and from a number to the reason that has it.
ghost use Rattle.std.specs.Prelude.{◌≡◌};
ghost use Rattle.refusal.specs.declared.kinds.Denial.TheVariants.{Because};
ghost use Rattle.refusal.specs.declared.kinds.Refusal.TheVariants.{Making, Call, Denied, Reading};
ghost use Rattle.refusal.specs.Numbers.{ReasonOf};

use super::kinds::{CallFault, Denial, JunctionFault, LineFault, NoReason, Reason, Refusal};

impl From<Reason> for Denial {
    ghost from_gives = { λ reason denial. denial ≡ Because reason };

    fn from(reason: Reason) -> Denial {
        Denial::Because(reason)
    }
}

impl From<JunctionFault> for Refusal {
    ghost from_gives = { λ fault refusal. refusal ≡ Making fault };

    fn from(fault: JunctionFault) -> Refusal {
        Refusal::Making(fault)
    }
}

impl From<CallFault> for Refusal {
    ghost from_gives = { λ fault refusal. refusal ≡ Call fault };

    fn from(fault: CallFault) -> Refusal {
        Refusal::Call(fault)
    }
}

impl From<Denial> for Refusal {
    ghost from_gives = { λ denial refusal. refusal ≡ Denied denial };

    fn from(denial: Denial) -> Refusal {
        Refusal::Denied(denial)
    }
}

impl From<LineFault> for Refusal {
    ghost from_gives = { λ fault refusal. refusal ≡ Reading fault };

    fn from(fault: LineFault) -> Refusal {
        Refusal::Reading(fault)
    }
}

// A new reason that REJECT may carry wants its line here.
impl TryFrom<u32> for Reason {
    type Error = NoReason;

    ghost try_from_gives = { ReasonOf };

    fn try_from(number: u32) -> Result<Reason, NoReason> {
        match number {
            29 => Ok(Reason::NameStands),
            30 => Ok(Reason::Free30),
            31 => Ok(Reason::StopLine),
            32 => Ok(Reason::Free32),
            33 => Ok(Reason::Limit),
            35 => Ok(Reason::LedgerFull),
            36 => Ok(Reason::Range),
            37 => Ok(Reason::BaseGone),
            38 => Ok(Reason::Answered),
            39 => Ok(Reason::Time),
            _ => Err(NoReason(number)),
        }
    }
}
