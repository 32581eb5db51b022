// Numbers in decimal.

ghost use Rattle.std.specs.Prelude.{◌≡◌, ℕ, ◌<◌, ◌≤◌, ◌^◌, List, true, Some, None, IfSome, if◌then◌else◌, nat_lt};
ghost use Rattle.std.specs.Fmt.{decimal};
ghost use Rattle.std.specs.Str.{all_ascii_digits};
ghost use Rattle.std.specs.Str.Parse.{digits_value};
ghost use Rattle.da_base.specs.Words.{is_numeral, number_of, number};

fn has_only_digits(text: &[u8]) -> bool
    ensures { result ≡ all_ascii_digits text.now }
{
    for byte in text {
        if !byte.is_ascii_digit() {
            return false;
        }
    }
    true
}

fn is_decimal(text: &[u8]) -> bool
    ensures { result ≡ is_numeral text.now }
{
    match text {
        [] => false,
        [only] => only.is_ascii_digit(),
        [first, ..] => *first != b'0' && has_only_digits(text),
    }
}

fn value_of_digits(digits: &[u8]) -> Option<u64>
    requires { all_ascii_digits digits.now ≡ true }
    ensures { result ≡ (if nat_lt (digits_value 10 digits.now) (2 ^ 64) then Some (digits_value 10 digits.now) else None) }
{
    let mut value: u64 = 0;
    for digit in digits {
        value = value
            .checked_mul(10)?
            .checked_add(u64::from(*digit - b'0'))?;
    }
    Some(value)
}

/// The number of at most `max` that the text spells in decimal, without leading zeros but for `0` itself. `None` exactly
/// where it spells no such number.
pub fn decimal_number(text: &[u8], max: u64) -> Option<u64>
    ensures value { result ≡ number_of max text.now }
    ensures bound { IfSome result (λ n. n ≤ max) }
{
    if !is_decimal(text) {
        return None;
    }
    let value = value_of_digits(text)?;
    if value <= max { Some(value) } else { None }
}

/// The number of at most 4,294,967,295 that the text spells in decimal, likewise.
pub fn decimal_u32(text: &[u8]) -> Option<u32>
    ensures { result ≡ number text.now }
{
    let value = decimal_number(text, u64::from(u32::MAX))?;
    Some(value as u32)
}

/// A number that is printed in decimal is read again.
pub fn printed_number_is_read()
    ensures { (max n : ℕ) → n ≤ max → n < 2 ^ 64 → number_of max (decimal n) ≡ Some n }
{}

/// A text that is read as a number is what is printed for that number.
pub fn number_is_decimal()
    ensures { (max n : ℕ) (text : List ℕ) → n < 2 ^ 64 → number_of max text ≡ Some n → text ≡ decimal n }
{}
