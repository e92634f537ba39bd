// Why a line does not come to its end. An error of the output's own and no `anyhow::Error`, which has twice the bytes: room is
// made for one at each step of each line.
use refusal::kinds::{CallFault, Denial, JunctionFault, Refusal};
use std::alloc::AllocError;
use std::io;

#[derive(Drop)]
pub(crate) enum Stop {
    // what it asks for is refused
    Refused(Refusal),
    // it asks for nothing that there is
    Fault,
    // nothing more can be stored or printed
    Broken(io::Error),
}

impl From<JunctionFault> for Stop {
    fn from(fault: JunctionFault) -> Stop {
        Stop::Refused(fault.into())
    }
}

impl From<CallFault> for Stop {
    fn from(fault: CallFault) -> Stop {
        Stop::Refused(fault.into())
    }
}

impl From<Denial> for Stop {
    fn from(denial: Denial) -> Stop {
        Stop::Refused(denial.into())
    }
}

impl From<AllocError> for Stop {
    fn from(_error: AllocError) -> Stop {
        let error = io::Error::new(io::ErrorKind::OutOfMemory, "memory allocation failed");
        Stop::Broken(error)
    }
}

impl From<io::Error> for Stop {
    fn from(error: io::Error) -> Stop {
        Stop::Broken(error)
    }
}
