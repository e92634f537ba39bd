// What the manager replies to a number that it has heard, and what it does with a new one.
ghost use Rattle.std.specs.Prelude.{◌≡◌, ◌<◌, Some, Decides};
ghost use Rattle.policy.specs.Views.{found};
ghost use Rattle.run.specs.Manager.{Based, again, hearing, outcome, request};
ghost use Rattle.run.specs.Worlds.{conduct};
ghost use Rattle.manager.specs.Judging.{Asked, Denied, Renewed};

use super::clear::release_stale;
use message::row::MessageRow;
use policy::policy::Policy;
use refusal::kinds::{Denial, Name, Reason};
use reservation::request::Request;
use vehicle::agent::Reaction;
use vehicle::rows::VehicleRow;

// Whether the request of that name stands.
pub(crate) fn stands<P: Policy>(policy: &P, name: Name) -> bool
    ensures { Decides result (Based (P.view policy.now) name.vehicle (Some name.number)) }
{
    policy.find(name).is_some()
}

// The reply to a name that the manager has heard before, by whether its request still stands.
pub(crate) fn answer_again<P: Policy>(policy: &P, name: Name) -> MessageRow
    ensures { result ≡ again name.vehicle name.number (found name (P.view policy.now).ledger) }
{
    let Name { vehicle, number } = name;
    match policy.find(name) {
        Some(entry) => MessageRow::Confirm {
            vehicle,
            number,
            entry,
        },
        None => MessageRow::Reject {
            vehicle,
            number,
            denial: Denial::Because(Reason::Answered),
        },
    }
}

// What the policy is asked: the entry and the distance are the message's, and the body is that of the vehicle's record.
pub(crate) fn request_of(row: &VehicleRow, name: Name, entry: u32, distance: u32) -> Request
    ensures { result ≡ request row.now name.vehicle name.number «entry» distance }
{
    Request {
        vehicle: name.vehicle,
        number: name.number,
        body: row.body,
        distance,
        entry,
    }
}

// The row, once the manager has heard the number.
fn having_heard(row: VehicleRow, number: u32) -> VehicleRow
    ensures { result ≡ hearing row number }
{
    VehicleRow {
        heard: number,
        ..row
    }
}

// Asks the policy, and replies what it answers.
fn ask<P: Policy>(policy: &mut P, request: Request) -> MessageRow
    ensures { Asked (conduct P.view P.asks P.releases P.advances) policy.old request policy.new result }
{
    let Request {
        vehicle,
        number,
        entry,
        ..
    } = request;
    match policy.ask(&request) {
        Ok(()) => MessageRow::Confirm {
            vehicle,
            number,
            entry,
        },
        Err(denial) => MessageRow::Reject {
            vehicle,
            number,
            denial,
        },
    }
}

// Judges a request of a new number, whose base stands if it has one: what the vehicle asked for earlier is released, but
// for the base, and the policy is asked.
pub(crate) fn judge<P: Policy>(
    policy: &mut P,
    row: VehicleRow,
    base: Option<u32>,
    request: Request,
) -> Reaction
    requires new { row.heard < request.number }
    requires based { Based (P.view policy.old) request.vehicle base }
    ensures { Renewed (conduct P.view P.asks P.releases P.advances) policy.old row request base (outcome result.row policy.new result.reply) }
{
    release_stale(policy, request.vehicle, base);
    Reaction {
        row: having_heard(row, request.number),
        reply: Some(ask(policy, request)),
    }
}

// Turns down a change whose base does not stand. What else the vehicle asked for earlier is released all the same.
pub(crate) fn deny<P: Policy>(policy: &mut P, row: VehicleRow, change: Name, base: u32) -> Reaction
    requires new { row.heard < change.number }
    requires gone { Based (P.view policy.old) change.vehicle (Some base) → ⊥ }
    ensures { Denied (conduct P.view P.asks P.releases P.advances) policy.old row change base (outcome result.row policy.new result.reply) }
{
    let Name { vehicle, number } = change;
    release_stale(policy, vehicle, Some(base));
    Reaction {
        row: having_heard(row, number),
        reply: Some(MessageRow::Reject {
            vehicle,
            number,
            denial: Denial::Because(Reason::BaseGone),
        }),
    }
}
