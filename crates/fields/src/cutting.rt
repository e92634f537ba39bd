// Where the fields of a text lie.
ghost use Rattle.std.specs.Prelude.{◌≡◌, ◌+◌, ◌≤◌, length};
ghost use Rattle.fields.specs.Texts.{begins, comma, first_length, split};

pub fn is_comma(b: u8) -> bool
    ensures { result ≡ comma b }
{
    b == b','
}

// How many bytes the first field has.
pub fn first_len(text: &[u8]) -> usize
    ensures answer { result ≡ first_length text.now }
    ensures within { result ≤ length text.now }
{
    text.iter().position(|b| is_comma(*b)).unwrap_or(text.len())
}

// How many fields there are: one more than commas.
#[tactic(auto, using(crate::proofs::Cuts::fields_counted))]
pub fn count_fields(text: &[u8]) -> usize
    ensures answer { result ≡ length (split text.now) }
{
    text.iter().filter(|b| is_comma(**b)).count() + 1
}

// How many bytes the field and its comma have.
fn len_with_comma(field: &[u8]) -> usize
    ensures { result ≡ length field.now + 1 }
{
    field.len() + 1
}

// Where a field begins, the first being 0: behind the fields before it, each with its comma.
pub fn field_start(text: &[u8], index: usize) -> usize
    ensures answer { result ≡ begins (split text.now) index }
{
    text.split(|b| is_comma(*b))
        .take(index)
        .map(len_with_comma)
        .sum()
}
