// The cases in which a call is turned away, by the place that checks.

// A junction cannot be made.
#[derive(Clone, Copy)]
pub enum JunctionFault {
    // an approach has neither 1 nor 2 lanes
    Lanes = 1,
    // the buffer is above 4 ticks
    Buffer = 2,
}

// A run call is turned away.
#[derive(Clone, Copy)]
pub enum CallFault {
    // the policy's clock or junction is not the run's, or at open the policy is not new
    Policy = 4,
    // a memory is too large, a count is above its memory, or a counted row makes no record or message
    Memory = 5,
    // a field of the arriving vehicle is out of its range or breaks the lane rule
    Arrival = 6,
    // vehicle memory is full
    VehiclesFull = 7,
    // too near behind the last vehicle of the lane
    TooClose = 8,
    // there is no such vehicle
    NoVehicle = 9,
    // the vehicle's state does not allow this call
    State = 10,
    // the vehicle is not the first in its lane
    NotLead = 11,
    // the entry is over already, or the vehicle cannot reach the line by then
    TooEarly = 12,
    // the crossing would end beyond the ticks that a reservation may reach
    TooLate = 13,
    // the vehicle has used its 1,000 request numbers
    NumbersUsed = 14,
    // mail memory is full
    MailFull = 15,
    // there is no such message
    NoMessage = 16,
    // a nudge is not by one tick, or the second one in a tick
    Nudge = 17,
    // the lag would pass the buffer
    Lag = 18,
    // the clock has come to its last tick
    ClockEnd = 19,
}

// Why a request for a reservation is rejected, but for a clash. A gate of a client's own policy may
// give any of these; the two without a meaning here are for such gates.
#[derive(Clone, Copy)]
pub enum Reason {
    // a request of this name stands
    NameStands = 29,
    Free30 = 30,
    // the vehicle is not at the stop line
    StopLine = 31,
    Free32 = 32,
    // the vehicle asks from beyond its lane's limit
    Limit = 33,
    // 64 requests stand
    LedgerFull = 35,
    // a field is out of its range or breaks the lane rule
    Range = 36,
    // the reservation that was to be changed does not stand
    BaseGone = 37,
    // this number was answered before, and does not stand
    Answered = 38,
    // the first tick is not after the clock, or the last is beyond the ticks that a reservation may reach
    Time = 39,
}

// A number that is no reason's.
#[derive(Clone, Copy)]
pub struct NoReason(pub u32);

// The name of a request: its vehicle, and the number that the vehicle gave it.
#[derive(Clone, Copy, PartialEq, Eq)]
pub struct Name {
    pub vehicle: u32,
    pub number: u32,
}

// A policy's refusal of a request.
#[derive(Clone, Copy)]
pub enum Denial {
    Because(Reason),
    // a standing request of another vehicle clashes, and this is the earliest such
    Clash(Name),
}

// A line is no message.
#[derive(Clone, Copy)]
pub enum LineFault {
    // it is empty, or longer than 64 bytes
    Length = 40,
    // its keyword is unknown
    Keyword = 41,
    // it has a wrong count of fields
    Count = 42,
    // a field is malformed or out of its range
    Field = 43,
}

// A line cannot be written.
#[derive(Clone, Copy)]
pub enum WriteFault {
    // the memory is too short
    Room = 44,
}

// Any refusal.
#[derive(Clone, Copy)]
pub enum Refusal {
    Making(JunctionFault),
    Call(CallFault),
    Denied(Denial),
    Reading(LineFault),
    Writing(WriteFault),
}
