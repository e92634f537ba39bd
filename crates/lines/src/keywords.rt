// The word that begins a line of each kind.
ghost use Rattle.std.specs.Prelude.{◌≡◌};
ghost use Rattle.lines.specs.Lines.{Recognised, keyword};

use message::kinds::Kind;

const REQUEST: &[u8] = b"REQUEST";

const CHANGE: &[u8] = b"CHANGE";

const CANCEL: &[u8] = b"CANCEL";

const DONE: &[u8] = b"DONE";

const CONFIRM: &[u8] = b"CONFIRM";

const REJECT: &[u8] = b"REJECT";

pub(crate) fn keyword_of(kind: Kind) -> &'static [u8]
    ensures { result.now ≡ keyword kind }
{
    match kind {
        Kind::Request => REQUEST,
        Kind::Change => CHANGE,
        Kind::Cancel => CANCEL,
        Kind::Done => DONE,
        Kind::Confirm => CONFIRM,
        Kind::Reject => REJECT,
    }
}

// The kind whose keyword this is. No two kinds have one keyword, so they may be tried in any order.
pub(crate) fn recognise(word: &[u8]) -> Option<Kind>
    ensures { Recognised word.now result }
{
    Kind::ALL
        .iter()
        .copied()
        .find(|kind| word == keyword_of(*kind))
}
