// A message as a plain row.
use refusal::kinds::Denial;

// Any numbers may stand here: `Message::of` checks them.
#[derive(Clone, Copy)]
pub enum MessageRow {
    // to the manager
    Request {
        vehicle: u32,
        number: u32,
        entry: u32,
        distance: u32,
    },
    Change {
        vehicle: u32,
        number: u32,
        // the number of the reservation to be replaced
        base: u32,
        entry: u32,
        distance: u32,
    },
    Cancel {
        vehicle: u32,
        number: u32,
    },
    Done {
        vehicle: u32,
    },
    // to the vehicle
    Confirm {
        vehicle: u32,
        number: u32,
        entry: u32,
    },
    Reject {
        vehicle: u32,
        number: u32,
        // a clash carries the clashing request's name, and no other reason has one
        denial: Denial,
    },
}
