// The rows of an answer that are the same for every policy.
ghost use Rattle.std.specs.Prelude.{◌≡◌, Err};
ghost use Rattle.policy.specs.Answers.{Screened, is_in_time};
ghost use Rattle.policy.specs.Layers.{refused_by};

use grid::junction::Junction;
use grid::path::Path;
use refusal::kinds::Reason;
use reservation::request::Request;

// Whether the request's span lies ahead, and in reach of a reservation.
fn in_time(path: &Path, clock: u32, request: &Request) -> bool
    requires { path.now.body ≡ request.now.body }
    ensures { result ≡ is_in_time path.now.junction clock request.now }
{
    let buffer = path.junction.buffer as u64;
    let entry = request.entry as u64;
    let clock = clock as u64;
    clock + buffer < entry && entry + path.duration as u64 + buffer <= clock + 128
}

// Refuses the request before a policy is asked that lies below this gate: for its range, its time, because
// its name stands, or by the gate. The junction and the clock are asked for one by one: each policy holds them in a form of
// its own, and a struct for the two would be made for this call alone.
pub fn stop_rows(
    junction: Junction,
    clock: u32,
    standing: Option<u32>,
    request: &Request,
    own: Option<Reason>,
) -> Result<(), Reason>
    ensures answer { Screened junction clock standing request.now (λ g o. o ≡ Err g) (λ o. o ≡ refused_by own) result }
{
    let Some(path) = request.path(junction) else {
        return Err(Reason::Range);
    };
    if !in_time(&path, clock, request) {
        return Err(Reason::Time);
    }
    if standing.is_some() {
        return Err(Reason::NameStands);
    }
    own.map_or(Ok(()), Err)
}
