// The kinds of messages, and the kinds of numbers that they carry.

#[derive(Clone, Copy)]
pub enum Kind {
    Request,
    Change,
    Cancel,
    Done,
    Confirm,
    Reject,
}

impl Kind {
    pub const ALL: [Kind; 6] = [
        Kind::Request,
        Kind::Change,
        Kind::Cancel,
        Kind::Done,
        Kind::Confirm,
        Kind::Reject,
    ];
}

// What a number of a message stands for.
#[derive(Clone, Copy)]
pub enum Field {
    Vehicle,
    // a request's number, or that of the base of a change
    Number,
    Entry,
    Distance,
    // why a request is rejected
    Reason,
    // of the clashing request, or 0 where no clash is told
    RivalVehicle,
    RivalNumber,
}
