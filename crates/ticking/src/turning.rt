// A tick over all vehicles.
ghost use Rattle.std.specs.Prelude.{◌≡◌, true, None, slice_index_or};
ghost use Rattle.grid.specs.Bodies.{fits, lane_number_of};
ghost use Rattle.ticking.specs.Turning.{Fit, Passed, Posted, TurnedAll, TurnedAt};

use super::distances::distance_after;
use super::lanes::Lanes;
use super::states::{has_finished, state_after};
use lent::mail::post;
use message::row::MessageRow;
use vehicle::now::Now;
use vehicle::rows::{State, VehicleRow};

// The row after the tick, where the lanes have seen all vehicles of lower numbers.
fn turned(now: Now, lanes: &Lanes, row: &VehicleRow) -> VehicleRow
    ensures { fits now.junction.lanes row.now.body ≡ true → TurnedAt now.junction now.clock (slice_index_or lanes.now.behind (lane_number_of row.now.body) None) row.now result }
{
    let place = lanes.place_ahead(row);
    VehicleRow {
        distance: distance_after(row, place),
        state: state_after(now, row),
        ..*row
    }
}

// Takes the next vehicle over the tick: answers whether it came to its end. Those behind it are to see it as it was.
fn pass(now: Now, lanes: &mut Lanes, row: &mut VehicleRow) -> bool
    ensures { Passed now.junction now.clock lanes.old.behind lanes.new.behind row.old row.new result }
{
    // most vehicles of a long run are done, and a tick changes nothing of those
    if let State::Done { .. } = row.state {
        return false;
    }
    let new = turned(now, lanes, row);
    let ended = has_finished(row, &new);
    lanes.see(row);
    *row = new;
    ended
}

// Puts a DONE behind the first `count` messages, if mail has a free place: answers how many messages there are then.
fn post_done(mail: &mut [MessageRow], count: usize, vehicle: u32) -> usize
    ensures { Posted mail.old count (MessageRow.Done vehicle) mail.new result }
{
    post(mail, count, MessageRow::Done { vehicle }).unwrap_or(count)
}

// Takes all vehicles over the tick that comes to the clock, by number, and puts a DONE behind the first `sent` messages
// for each that came to its end, while mail has a free place: answers how many messages there are then.
pub fn turn_all(
    now: Now,
    vehicles: &mut [VehicleRow],
    mail: &mut [MessageRow],
    sent: usize,
) -> usize
    ensures answer { Fit now.junction vehicles.old mail.old sent → TurnedAll now.junction now.clock vehicles.old vehicles.new mail.old mail.new sent result }
{
    let mut lanes = Lanes::new();
    let mut count = sent;
    // with their index, one less than their number: a proof knows nothing of rows that an adapter of `iter_mut` lent
    for i in 0..vehicles.len() {
        if pass(now, &mut lanes, &mut vehicles[i]) {
            let number = u32::try_from(i + 1).unwrap_or(u32::MAX);
            count = post_done(mail, count, number);
        }
    }
    count
}
