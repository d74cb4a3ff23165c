ghost use Rattle.std.specs.Prelude.{◌≡◌, ◌≤◌, ◌<◌, ◌*◌, ◌+◌, ◌^◌, SomeIff};
ghost use Rattle.ld_line.specs.Digits.{decimal_number, number_of};

/// The number that 1 to 10 decimal digits write, below 2^32. `None` for any other field.
#[tactic(auto, unfolding(crate::specs::Digits::decimal_number))]
pub fn read_number(field: &[u8]) -> Option<u32>
    ensures { result ≡ decimal_number field.now }
{
    read_digits(10, 10, field)
}

/// The number below 2^32 that one to so many digits of a base write, capitals or not. `None` for
/// any other field.
pub fn read_digits(radix: u32, most: usize, field: &[u8]) -> Option<u32>
    requires low { 2 ≤ radix }
    requires high { radix ≤ 36 }
    ensures { result ≡ number_of radix most field.now }
{
    if field.is_empty() || field.len() > most {
        return None;
    }
    let mut value = 0u32;
    let mut rest = field;
    while let Some((first, more)) = rest.split_first() {
        let Some(digit) = char::from(*first).to_digit(radix) else {
            return None;
        };
        let Some(more_digits) = append_digit(value, radix, digit) else {
            return None;
        };
        value = more_digits;
        rest = more;
    }
    Some(value)
}

// The number with one more digit, below 2^32.
fn append_digit(value: u32, radix: u32, digit: u32) -> Option<u32>
    ensures { SomeIff result (value * radix + digit < 2 ^ 32) (value * radix + digit) }
{
    value.checked_mul(radix)?.checked_add(digit)
}
