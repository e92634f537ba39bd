// Entries and ends.
ghost use Rattle.std.specs.Prelude.{◌≡◌, true, Decides, MatchOption};
ghost use Rattle.grid.specs.Bodies.{fits};
ghost use Rattle.grid.specs.Steps.{duration_of};
ghost use Rattle.vehicle.specs.declared.rows.Claim.{Claim};
ghost use Rattle.run.specs.Ticks.{Enters, Over, Turns, finished};
ghost use Rattle.ticking.specs.Turning.{Ends};

use grid::path::Path;
use vehicle::now::Now;
use vehicle::rows::{Claim, State, VehicleRow};

// What a vehicle enters on that has its first tick now.
fn entering(now: Now, state: &State) -> Option<Claim>
    ensures { MatchOption result ((held : Claim) → Enters now.junction now.clock state.now held → ⊥) (Enters now.junction now.clock state.now) }
{
    let held = state.held()?;
    (state.in_lane() && now.begins(held)).then_some(held)
}

// Whether a crossing of that duration is over.
fn is_over(duration: u32, clock: u32, held: Claim, lag: i32) -> bool
    ensures { Decides result (Over duration clock held lag) }
{
    let end = held.entry as i64 + duration as i64;
    end + lag as i64 <= clock as i64
}

// Whether the vehicle has come to its end. Here and below the answer is told of a row whose body fits: `turn_all` is public,
// takes any rows and requires nothing, and to make a record would be to check every row at every tick.
fn is_ending(now: Now, row: &VehicleRow) -> bool
    ensures { fits now.junction.lanes row.now.body ≡ true → Decides result (Ends (duration_of now.junction.lanes row.now.body) now.clock row.now.state) }
{
    let State::Crossing { held, lag, .. } = row.state else {
        return false;
    };
    Path::of(now.junction, row.body).is_some_and(|path| is_over(
        path.duration,
        now.clock,
        held,
        lag,
    ))
}

// The state after the tick.
pub(crate) fn state_after(now: Now, row: &VehicleRow) -> State
    ensures { fits now.junction.lanes row.now.body ≡ true → Turns now.junction (duration_of now.junction.lanes row.now.body) now.clock row.now.state result }
{
    if let Some(held) = entering(now, &row.state) {
        return State::Crossing {
            held,
            lag: 0,
            nudged: 0,
        };
    }
    if is_ending(now, row) {
        return State::Done { tick: now.clock };
    }
    row.state
}

// Whether the vehicle came to be Done.
pub(crate) fn has_finished(old: &VehicleRow, new: &VehicleRow) -> bool
    ensures { result ≡ finished old.now new.now }
{
    !matches!(old.state, State::Done { .. }) && matches!(new.state, State::Done { .. })
}
