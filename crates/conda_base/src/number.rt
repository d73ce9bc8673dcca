ghost use Rattle.std.specs.Prelude.{◌≡◌, ◌≢◌, ◌↔◌, ◌≤◌, ◌<◌, ◌^◌, ℕ, List, true};
ghost use Rattle.std.specs.Prelude.{IfNone, IfSome, Some, decimal};
ghost use Rattle.std.specs.Str.Parse.{digits_value};
ghost use Rattle.conda_base.specs.Numbers as numbers;
ghost use Rattle.conda_base.specs.Numbers.{digits_below, is_digits, number_below};

/// The number below 2^64 that digits mean, leading zeros or not.
pub fn digits_u64(text: &[u8]) -> Option<u64>
    ensures { result ≡ digits_below (2 ^ 64) text.now }
{
    if text.is_empty() {
        return None;
    }
    let mut number: u64 = 0;
    for digit in text {
        if !digit.is_ascii_digit() {
            return None;
        }
        number = number
            .checked_mul(10)?
            .checked_add(u64::from(*digit - b'0'))?;
    }
    Some(number)
}

#[tactic(auto, using(crate::proofs::NumberLemmas::kept_digits))]
/// The number below a limit that digits mean, leading zeros or not.
pub fn read_digits(text: &[u8], limit: u64) -> Option<u64>
    ensures { result ≡ digits_below limit text.now }
{
    let number = digits_u64(text)?;
    if number < limit { Some(number) } else { None }
}

/// Whether a text has a `0` in front of more.
fn has_leading_zero(text: &[u8]) -> bool
    ensures { result ≡ numbers.has_leading_zero text.now }
{
    match text {
        [b'0', _, ..] => true,
        _ => false,
    }
}

/// The number below 2^64 of which the text is the decimal form, without a leading zero.
pub fn read_u64(text: &[u8]) -> Option<u64>
    ensures exact { result ≡ number_below (2 ^ 64) text.now }
    ensures decimal { IfSome result (λ n. (text.now ≡ decimal n) × (n < 2 ^ 64)) }
    ensures only { IfNone result ((n : ℕ) → n < 2 ^ 64 → text.now ≢ decimal n) }
{
    if has_leading_zero(text) {
        return None;
    }
    digits_u64(text)
}

/// The number below a limit of which the text is the decimal form, without a leading zero.
pub fn read_number(text: &[u8], limit: u64) -> Option<u64>
    ensures exact { result ≡ number_below limit text.now }
    ensures decimal { IfSome result (λ n. (text.now ≡ decimal n) × (n < limit)) }
    ensures only { IfNone result ((n : ℕ) → n < limit → text.now ≢ decimal n) }
{
    if has_leading_zero(text) {
        return None;
    }
    read_digits(text, limit)
}

/// What the readers of numbers mean, in std's words for a number's decimal form and the value of
/// digits.
pub fn number_laws()
    ensures number { (limit : ℕ) (text : List ℕ) (n : ℕ) → limit ≤ 2 ^ 64 →
        (number_below limit text ≡ Some n) ↔ ((text ≡ decimal n) × (n < limit)) }
    ensures digits { (limit : ℕ) (text : List ℕ) (n : ℕ) →
        (digits_below limit text ≡ Some n)
        ↔ ((is_digits text ≡ true) × (digits_value 10 text ≡ n) × (n < limit)) }
{}
