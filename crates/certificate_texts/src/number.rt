//! Numbers in the lines of certificates: for `line_reading`.

ghost use Rattle.std.specs.Prelude.{◌≡◌, ◌≢◌, ◌^◌, ◌<◌, ◌≤◌, ◌&&◌, ◌||◌, nat_le, nat_eq, ℕ, true, length, slice_index, MatchOption};
ghost use Rattle.std.specs.Fmt.{decimal};
ghost use Rattle.std.specs.Str.{all_ascii_digits};
ghost use Rattle.certificate_texts.specs.Numbers.{digits_number, has_form};

/// How many digits a number may have.
const MOST_DIGITS: usize = 10;

/// Whether each byte is a decimal digit.
#[tactic(auto, using(crate::proofs::Digits::more_digits, crate::proofs::Digits::first_mark, crate::proofs::Digits::all_digits))]
fn are_digits(bytes: &[u8]) -> bool
    ensures { result ≡ all_ascii_digits bytes.now }
{
    let mut rest = bytes;
    while let Some((byte, others)) = rest.split_first() {
        if !byte.is_ascii_digit() {
            return false;
        }
        rest = others;
    }
    true
}

/// Whether these many digits, of which the first is this, are a number: ten at most, without a leading zero.
fn has_form(first: u8, count: usize) -> bool
    ensures { result ≡ has_form first count }
{
    count == 1 || (count <= MOST_DIGITS && first != b'0')
}

/// What the digits say, no more than ten.
#[tactic(auto, using(crate::proofs::Digits::next_number, crate::proofs::Digits::small_number, crate::proofs::Digits::digit_from, crate::proofs::Digits::digit_to))]
fn value_of(digits: &[u8]) -> u64
    requires digits { all_ascii_digits digits.now ≡ true }
    requires few { length digits.now ≤ 10 }
    ensures { result ≡ digits_number 0 digits.now }
{
    let mut value: u64 = 0;
    for digit in digits {
        value = 10 * value + u64::from(*digit - b'0');
    }
    value
}

/// The number that is written so, with ten digits at most.
#[tactic(auto, using(crate::proofs::Digits::number_read, crate::proofs::Digits::number_written, crate::proofs::Digits::few_digits))]
pub fn number_of(digits: &[u8]) -> Option<u64>
    ensures { MatchOption result ((n : ℕ) → n < 10 ^ 10 → digits.now ≢ decimal n) (λ n. (n < 10 ^ 10) × (digits.now ≡ decimal n)) }
{
    let first = *digits.first()?;
    let formed = has_form(first, digits.len());
    if formed && are_digits(digits) {
        Some(value_of(digits))
    } else {
        None
    }
}
