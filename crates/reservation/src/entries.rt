// Which entries a vehicle may ask for.
ghost use Rattle.std.specs.Prelude.{◌≡◌};
ghost use Rattle.reservation.specs.Entries.{entry_row};

use grid::path::Path;
use refusal::kinds::CallFault;

// Whether a vehicle on this path may ask for the entry, at this clock and distance from the line.
pub fn check_entry(path: &Path, clock: u32, distance: u32, entry: u32) -> Result<(), CallFault>
    ensures answer { result ≡ entry_row path.now.junction path.now.body clock distance entry }
{
    let from = clock as u64 + path.junction.buffer as u64;
    let entry = entry as u64;
    if entry <= from || path.body.speed as u64 * (entry - from) < distance as u64 {
        return Err(CallFault::TooEarly);
    }
    let end = entry + path.duration as u64 + path.junction.buffer as u64;
    if end > clock as u64 + 128 {
        return Err(CallFault::TooLate);
    }
    Ok(())
}
