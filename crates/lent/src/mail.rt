// How mail moves in lent memory. Memory and count are no struct: the memory is the caller's and the count is the run's, and
// the rules hold them apart.
ghost use Rattle.std.specs.Prelude.{◌≡◌, ◌-◌, ◌<◌, ◌≤◌, ◌++◌, length, take, drop};
ghost use Rattle.std.specs.List.{remove};
ghost use Rattle.lent.specs.Moves.{Among, Posts, Settled};

use message::row::MessageRow;
use refusal::kinds::CallFault;

// The later ones of the first `count` rows move up over row i. What the last of them held stays behind them.
fn close_gap(mail: &mut [MessageRow], i: usize, count: usize)
    requires inside { i < count }
    requires lent { count ≤ length mail.old }
    ensures { mail.new ≡ remove (take count mail.old) i ++ drop (count - 1) mail.old }
{
    mail.copy_within(i + 1..count, i);
}

// A reply takes the place of the message of that number, from 1; without one the later of the first `count` move up. The
// answer is how many there are then. A number with no message among them alters nothing.
pub fn settle(
    mail: &mut [MessageRow],
    count: usize,
    message: usize,
    reply: Option<MessageRow>,
) -> usize
    ensures after { Among mail.old count message → Settled mail.old count message reply result mail.new }
    ensures same { (Among mail.old count message → ⊥) → (result ≡ count) × (mail.new ≡ mail.old) }
{
    if message < 1 || message > count || count > mail.len() {
        return count;
    }
    match reply {
        Some(row) => {
            mail[message - 1] = row;
            count
        }
        None => {
            close_gap(mail, message - 1, count);
            count - 1
        }
    }
}

// A message comes in behind the first `count`, if there is room. The answer is how many there are then.
pub fn post(mail: &mut [MessageRow], count: usize, row: MessageRow) -> Result<usize, CallFault>
    ensures answer { Posts mail.old count row mail.new result }
{
    if count >= mail.len() {
        return Err(CallFault::MailFull);
    }
    mail[count] = row;
    Ok(count + 1)
}
