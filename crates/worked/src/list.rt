// The junctions worked by hand hold of the rules.
ghost use Rattle.std.specs.Prelude.{◌≡◌, length};
ghost use Rattle.worked.specs.Worked.{AllHold, worked};

// Every statement of the list holds.
fn hold()
    ensures { AllHold }
{}

// How many statements there are on the junctions worked by hand, each of which holds.
pub fn statements() -> u32
    ensures hold { AllHold }
    ensures count { result ≡ length worked }
{
    hold();
    25
}
