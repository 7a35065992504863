//! The parts of a number's spelling.

ghost use Rattle.std.specs.Prelude.{◌≡◌, ◌≤◌, length};
ghost use Rattle.std.specs.Char.{is_ascii_digit};
ghost use Rattle.cv_spec_text.specs.Characters.{begins_by, is_sign};
ghost use Rattle.cv_spec_text.specs.Numbers.{digits_length as digits_of, sign_length as sign_of, fraction_length as fraction_of, mantissa_length as mantissa_of, exponent_length as exponent_of, number_length as number_of};

/// Whether the text begins with a digit.
fn begins_digit(text: &[u8]) -> bool
    ensures { result ≡ begins_by is_ascii_digit text.now }
{
    match text {
        [c, ..] => c.is_ascii_digit(),
        [] => false,
    }
}

/// How many digits stand at the front.
pub fn digits_length(text: &[u8]) -> usize
    ensures size { result ≡ digits_of text.now }
    ensures within { result ≤ length text.now }
{
    text.iter().take_while(|c| c.is_ascii_digit()).count()
}

/// How many signs stand at the front, one at most.
pub fn sign_length(text: &[u8]) -> usize
    ensures size { result ≡ sign_of text.now }
    ensures within { result ≤ length text.now }
{
    match text {
        [b'+' | b'-', ..] => 1,
        _ => 0,
    }
}

/// How many bytes a point with its digits takes.
#[tactic(auto, unfolding(cv_spec_text::specs::Numbers::fraction_length))]
pub fn fraction_length(text: &[u8]) -> usize
    ensures size { result ≡ fraction_of text.now }
    ensures within { result ≤ length text.now }
{
    match text {
        [b'.', rest @ ..] if begins_digit(rest) => 1 + digits_length(rest),
        _ => 0,
    }
}

/// How many bytes the digits and the point between them take.
#[tactic(auto, unfolding(cv_spec_text::specs::Numbers::mantissa_length))]
pub fn mantissa_length(text: &[u8]) -> usize
    ensures size { result ≡ mantissa_of text.now }
    ensures within { result ≤ length text.now }
{
    let digits = digits_length(text);
    digits + fraction_length(&text[digits..])
}

/// How many bytes the exponent takes.
#[tactic(auto, unfolding(cv_spec_text::specs::Numbers::exponent_length))]
pub fn exponent_length(text: &[u8]) -> usize
    ensures size { result ≡ exponent_of text.now }
    ensures within { result ≤ length text.now }
{
    match text {
        [b'e' | b'E', rest @ ..] => {
            let sign = sign_length(rest);
            match digits_length(&rest[sign..]) {
                0 => 0,
                digits => 1 + sign + digits,
            }
        }
        _ => 0,
    }
}

/// How many bytes the number at the front takes, or 0 where there is none.
#[tactic(auto, unfolding(cv_spec_text::specs::Numbers::number_length))]
pub fn number_length(text: &[u8]) -> usize
    ensures size { result ≡ number_of text.now }
    ensures within { result ≤ length text.now }
{
    let sign = sign_length(text);
    let unsigned = &text[sign..];
    match mantissa_length(unsigned) {
        0 => 0,
        mantissa => sign + mantissa + exponent_length(&unsigned[mantissa..]),
    }
}
