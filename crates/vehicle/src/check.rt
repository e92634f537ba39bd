// From rows to records: the ranges of a row's numbers.
ghost use Rattle.std.specs.Prelude.{◌≡◌, Decides};
ghost use Rattle.std.specs.List.{AllByRecursion};
ghost use Rattle.vehicle.specs.Records.{Good, RecordOf};
ghost use Rattle.vehicle.specs.Rows.{good_claim, good_lag, good_numbers, good_row, good_state};

use super::rows::{Claim, State, VehicleRow};
use super::vehicle::Vehicle;
use grid::junction::Junction;

// Here and below comparisons are joined by `&`, since every call of a run checks every row, and a branch takes longer
// than the comparison that it would save.
impl Claim {
    fn is_good(&self) -> bool
        ensures { result ≡ good_claim self.now }
    {
        (self.number >= 1) & (self.number <= 1000) & (self.entry <= 1_000_127)
    }
}

// Whether a vehicle of this lag is at most a buffer off its plan.
pub fn lag_fits(junction: Junction, lag: i64) -> bool
    ensures answer { result ≡ good_lag junction.buffer lag }
{
    let slack = junction.buffer as i64;
    (lag >= -slack) & (lag <= slack)
}

impl State {
    fn is_good(&self, junction: Junction) -> bool
        ensures { result ≡ good_state junction.buffer self.now }
    {
        match self {
            State::Idle => true,
            State::Asking(claim) | State::Holding(claim) => claim.is_good(),
            State::Changing { held, awaited } => held.is_good() & awaited.is_good(),
            State::Crossing { held, lag, nudged } => held.is_good()
                & lag_fits(junction, *lag as i64)
                & (*nudged <= 1_000_000),
            State::Done { tick } => *tick <= 1_000_000,
        }
    }
}

impl VehicleRow {
    // Whether the numbers beside the body and the state are in their ranges.
    fn numbers_are_good(&self) -> bool
        ensures { result ≡ good_numbers self.now }
    {
        (self.distance <= 2000)
            & (self.first_distance >= 1)
            & (self.first_distance <= 2000)
            & (self.arrival <= 1_000_000)
            & (self.used <= 1000)
            & (self.heard <= 1000)
    }

    // Whether a record can be made of the row: all its numbers are in their ranges, and its lane suits its movement.
    #[tactic(auto, using(std::proofs::lemmas::Bool::Decides::nat_tests), unfolding(crate::specs::Rows::good_row))]
    pub fn is_good(&self, junction: Junction) -> bool
        ensures answer { result ≡ good_row junction self.now }
    {
        self.body.fits(junction) && self.numbers_are_good() && self.state.is_good(junction)
    }
}

// Whether a record can be made of each row.
pub fn rows_are_good(junction: Junction, rows: &[VehicleRow]) -> bool
    ensures answer { Decides result (AllByRecursion (Good junction) rows.now) }
{
    rows.iter().all(|row| row.is_good(junction))
}

impl Vehicle {
    // The record of the row, if all its numbers are in their ranges.
    pub fn of(junction: Junction, row: VehicleRow) -> Option<Vehicle>
        ensures answer { RecordOf junction row result }
    {
        if !row.is_good(junction) {
            return None;
        }
        Some(Vehicle { junction, row })
    }
}
