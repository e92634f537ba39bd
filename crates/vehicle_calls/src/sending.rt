// What a request for an entry must pass, whether it is the first or a change, and how it is sent.
ghost use Rattle.std.specs.Prelude.{◌≡◌, ◌+◌, length, slice_set};
ghost use Rattle.run.specs.Calls.{sending};
ghost use Rattle.run.specs.Tables.{Ruled};

use lent::mail::post;
use message::row::MessageRow;
use refusal::kinds::CallFault;
use reservation::entries::check_entry;
use run::run::Run;
use vehicle::vehicle::Vehicle;

// The vehicle sends this message for the entry, if it may. The answer is how much mail there is then.
pub(crate) fn send(
    run: &Run,
    vehicle: &Vehicle,
    entry: u32,
    mail: &mut [MessageRow],
    message: MessageRow,
) -> Result<usize, CallFault>
    requires { vehicle.now.junction ≡ run.now.junction }
    ensures { Ruled (sending run.now vehicle.now.row entry (length mail.old)) (λ k. (k ≡ run.now.mail + 1) × (mail.new ≡ slice_set mail.old run.now.mail message)) (mail.new ≡ mail.old) result }
{
    check_entry(&vehicle.path(), run.clock, vehicle.row.distance, entry)?;
    if vehicle.row.used >= 1000 {
        return Err(CallFault::NumbersUsed);
    }
    post(mail, run.mail, message)
}
