//! Numbers in words: decimal digits, no more than so many, and a value between two bounds. For `requests`.

ghost use Rattle.std.specs.Prelude.{◌≡◌, ◌≤◌, true};
ghost use Rattle.std.specs.Str.{all_ascii_digits};
ghost use Rattle.msc_requests.specs.Requests.{is_between, is_number, number_in};

/// Whether each byte is a decimal digit.
#[tactic(auto, using(crate::proofs::Digits::more_digits, crate::proofs::Digits::first_mark, crate::proofs::Digits::all_digits))]
fn are_digits(bytes: &[u8]) -> bool
    ensures { result ≡ all_ascii_digits bytes.now }
{
    let mut rest = bytes;
    while let Some((byte, others)) = rest.split_first() {
        if !byte.is_ascii_digit() {
            return false;
        }
        rest = others;
    }
    true
}

/// Whether the text is decimal digits, one or more, and no more than so many.
fn is_number(text: &str, most: usize) -> bool
    ensures { result ≡ is_number most text.now }
{
    let digits = are_digits(text.as_bytes());
    let length = text.len();
    let some = 1 <= length;
    let few = length <= most;
    digits & some & few
}

/// Whether the number is between these two.
fn is_between(least: u64, most: u64, number: u64) -> bool
    ensures { result ≡ is_between least most number }
{
    least <= number && number <= most
}

/// The number in a text of no more than so many digits, where it is between these two.
pub fn number_in(text: &str, digits: usize, least: u64, most: u64) -> Option<u64>
    requires { digits ≤ 19 }
    ensures { result ≡ number_in digits least most text.now }
{
    if !is_number(text, digits) {
        return None;
    }
    match text.parse::<u64>() {
        Ok(number) => {
            if is_between(least, most, number) {
                Some(number)
            } else {
                None
            }
        }
        Err(_) => None,
    }
}
