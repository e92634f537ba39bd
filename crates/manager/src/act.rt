// What is done with a message that is delivered.
ghost use Rattle.run.specs.Manager.{Acts, Responds, outcome};
ghost use Rattle.run.specs.Worlds.{conduct};
ghost use Rattle.manager.specs.Once.{Once, Only};

use super::clear::release_stale;
use super::judge::{answer_again, deny, judge, request_of, stands};
use message::row::MessageRow;
use policy::policy::Policy;
use refusal::kinds::Name;
use vehicle::agent::{Reaction, respond};
use vehicle::now::Now;
use vehicle::rows::VehicleRow;

// Hands an answer to the vehicle.
fn tell<P: Policy>(policy: &P, vehicle: u32, row: VehicleRow, message: MessageRow) -> Reaction
    ensures { Responds (conduct P.view P.asks P.releases P.advances) policy.now row vehicle message (outcome result.row policy.now result.reply) }
{
    let now = Now {
        junction: policy.junction(),
        clock: policy.clock(),
    };
    respond(now, vehicle, row, message)
}

// The manager's decision by the kind of the message: a number below the last one that was heard is old, that number
// itself has its answer, and a higher one is judged anew. An answer goes to the vehicle. It stands apart from `act`, and both
// say `Acts`: tried in one function, which owes the clauses on other outcomes at every arm, a wrong arm for DONE, or one
// that alters `heard` there, is refused only in proofs/.
fn decide<P: Policy>(policy: &mut P, row: VehicleRow, message: MessageRow) -> Reaction
    ensures { Acts (conduct P.view P.asks P.releases P.advances) policy.old row message (outcome result.row policy.new result.reply) }
{
    match message {
        MessageRow::Request { number, .. } | MessageRow::Change { number, .. }
            if number < row.heard => Reaction { row, reply: None },
        MessageRow::Request {
            vehicle,
            number,
            ..
        }
        | MessageRow::Change {
            vehicle,
            number,
            ..
        } if number == row.heard => {
            let reply = Some(answer_again(policy, Name { vehicle, number }));
            Reaction { row, reply }
        }
        MessageRow::Request {
            vehicle,
            number,
            entry,
            distance,
        } => {
            let request = request_of(&row, Name { vehicle, number }, entry, distance);
            judge(policy, row, None, request)
        }
        MessageRow::Change {
            vehicle,
            number,
            base,
            ..
        } if !stands(
            policy,
            Name {
                vehicle,
                number: base,
            },
        ) => deny(policy, row, Name { vehicle, number }, base),
        MessageRow::Change {
            vehicle,
            number,
            base,
            entry,
            distance,
        } => {
            let request = request_of(&row, Name { vehicle, number }, entry, distance);
            judge(policy, row, Some(base), request)
        }
        MessageRow::Cancel { vehicle, number } => {
            let _ = policy.release(Name { vehicle, number });
            Reaction { row, reply: None }
        }
        MessageRow::Done { vehicle } => {
            release_stale(policy, vehicle, None);
            Reaction { row, reply: None }
        }
        MessageRow::Confirm { vehicle, .. } | MessageRow::Reject { vehicle, .. } => {
            tell(policy, vehicle, row, message)
        }
    }
}

// Acts on a message that is from or for the vehicle of this row: the row after, and the message that takes the place of
// this one. The policy changes as the rules say; a CONFIRM or a REJECT leaves it as it is.
pub fn act<P: Policy>(policy: &mut P, row: VehicleRow, message: MessageRow) -> Reaction
    ensures answer { Acts (conduct P.view P.asks P.releases P.advances) policy.old row message (outcome result.row policy.new result.reply) }
    ensures only { Only (conduct P.view P.asks P.releases P.advances) P.gate policy.old row message (outcome result.row policy.new result.reply) }
    ensures once { Once (conduct P.view P.asks P.releases P.advances) policy.old row message (outcome result.row policy.new result.reply) }
{
    decide(policy, row, message)
}
