// The gate of Distance: a number for each of the eight lanes of a junction, from how far away a vehicle of the lane may
// ask.
ghost use Rattle.std.specs.Prelude.{◌≡◌, slice_index, slice_set};
ghost use Rattle.layers.specs.Gates.{distance_gate, limits_after, lowers};

use super::gate::Gate;
use refusal::kinds::{Denial, Reason};
use reservation::request::Request;

#[derive(Clone, Copy)]
pub struct LaneTable {
    // by lane number
    pub limits: [u32; 8],
}

// The limit of a lane, and 0 for a number that no lane has.
fn limit_of(limits: [u32; 8], lane: u64) -> u32
    ensures { result ≡ slice_index limits lane }
{
    limits.get(lane as usize).copied().unwrap_or(0)
}

// The limits with another one for a lane.
fn with_limit(limits: [u32; 8], lane: u64, limit: u32) -> [u32; 8]
    ensures { result ≡ slice_set limits lane limit }
{
    let mut next = limits;
    // by index: `get_mut` was tried, and the proof of what is written through it did not close
    if lane < 8 {
        next[lane as usize] = limit;
    }
    next
}

// Whether the refusal has a number from 31 to 35.
fn is_lowering(denial: &Denial) -> bool
    ensures { result ≡ lowers denial.now }
{
    (31..=35).contains(&denial.number())
}

// The limits after an answer from below: a grant lifts the lane's, and a refusal may lower it.
fn after_answer(limits: [u32; 8], request: &Request, answer: &Result<(), Denial>) -> [u32; 8]
    ensures { result ≡ limits_after limits request.now answer.now }
{
    let lane = request.body.lane_number();
    match answer {
        Ok(()) => with_limit(limits, lane, 2000),
        Err(denial) if is_lowering(denial) => {
            let limit = limit_of(limits, lane);
            with_limit(limits, lane, limit.min(request.distance))
        }
        Err(_) => limits,
    }
}

impl Gate for LaneTable {
    ghost refuses = { λ s r. distance_gate s.limits r };

    ghost after_answer = { λ s r a. record { limits = limits_after s.limits r a } };

    fn refuses(&self, request: &Request) -> Option<Reason> {
        if request.distance > limit_of(self.limits, request.body.lane_number()) {
            Some(Reason::Limit)
        } else {
            None
        }
    }

    fn note_refusal(&mut self, _reason: Reason) {}

    fn note_answer(&mut self, request: &Request, answer: &Result<(), Denial>) {
        self.limits = after_answer(self.limits, request, answer);
    }
}
