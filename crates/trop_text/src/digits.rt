//! The value of digits.
ghost use Rattle.std.specs.Prelude.{◌≡◌, ◌≤◌, ◌+◌, ◌-◌, ◌*◌, SomeIff};
ghost use Rattle.std.specs.Str.Parse.{AllDigits, digits_value as value_in};
ghost use Rattle.trop_text.specs.Digits.{number_of};

// The greatest bound up to which one more digit cannot overflow.
const SMALL: u64 = 1 << 60;

/// The number that decimal digits write, where it is at most `bound`; leading zeros are allowed. `None` where it is
/// more.
pub fn digits_value(text: &[u8], bound: u64) -> Option<u64>
    ensures value { SomeIff result (number_of text.now ≤ bound) (number_of text.now) }
    ensures decimal { AllDigits 10 text.now → number_of text.now ≡ value_in 10 text.now }
{
    let mut value = 0;
    for digit in text {
        value = with_digit(value, *digit, bound)?;
    }
    Some(value)
}

// The number whose digits are those of `value` and one more.
fn with_digit(value: u64, digit: u8, bound: u64) -> Option<u64>
    ensures { SomeIff result (value * 10 + (digit - 48) ≤ bound) (value * 10 + (digit - 48)) }
{
    let more = u64::from(digit).saturating_sub(48);
    let number = if value <= SMALL {
        value * 10 + more
    } else {
        value.checked_mul(10)?.checked_add(more)?
    };
    if number <= bound { Some(number) } else { None }
}
