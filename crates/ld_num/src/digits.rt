// Digits, and the numbers that they write.
ghost use Rattle.std.specs.Prelude.{◌≡◌, ◌^◌, ◌+◌, ◌*◌, ◌<◌, ◌≤◌, length, min, nat_le, slice_index, if◌then◌else◌};
ghost use Rattle.std.specs.Char.{is_ascii_digit};
ghost use Rattle.std.specs.List.{prefix_len};
ghost use Rattle.std.specs.Str.Parse.{AllDigits, digits_value_after};
ghost use Rattle.ld_num.specs.Front.{IsLed};

// The greatest size in millionths.
pub(crate) const MAX_SIZE: u64 = 1_000_000_000_000;

// A size that is out of range. Sums stop growing here.
pub(crate) const TOO_LARGE: u64 = MAX_SIZE + 1;

// How many digits stand first.
pub(crate) fn digit_count(text: &[u8]) -> usize
    ensures count { result ≡ prefix_len is_ascii_digit text.now }
    ensures within { result ≤ length text.now }
{
    for (index, byte) in text.iter().enumerate() {
        if !byte.is_ascii_digit() {
            return index;
        }
    }
    text.len()
}

// The number that digits at the front write when they follow those of `start`, and what stands behind them. At most so
// many digits are taken, so that no sum has to be capped.
#[inline(always)]
pub(crate) fn leading_number(start: u64, most: usize, text: &[u8]) -> (u64, &[u8])
    requires start { start < 10 ^ 7 }
    requires most { most ≤ 7 }
    ensures led { IsLed text.now start result.0 result.1.now most }
    ensures small { result.0 < (start + 1) * 10 ^ most }
{
    let mut number = start;
    let mut rest = text;
    for taken in 0..most {
        let Some((first, more)) = rest.split_first() else {
            return (number, rest);
        };
        if !first.is_ascii_digit() {
            return (number, rest);
        }
        number = number * 10 + u64::from(*first - b'0');
        rest = more;
    }
    (number, rest)
}

// The number that the digits write when they follow those of `start`.
pub(crate) fn capped(start: u64, digits: &[u8]) -> u64
    requires start { start ≤ TOO_LARGE }
    requires digits { AllDigits 10 digits.now }
    ensures { result ≡ min (digits_value_after 10 start digits.now) TOO_LARGE }
{
    let mut number = start;
    for digit in digits {
        number = (number * 10 + u64::from(*digit - b'0')).min(TOO_LARGE);
    }
    number
}

// The number with `count` zeros after it.
pub(crate) fn with_zeros(number: u64, count: usize) -> u64
    requires { number ≤ TOO_LARGE }
    ensures { result ≡ min (number * 10 ^ count) TOO_LARGE }
{
    // Thirteen zeros are too many for every number but zero.
    let power = 10u64.pow(count.min(13) as u32);
    number.saturating_mul(power).min(TOO_LARGE)
}

pub(crate) fn tens(count: usize) -> u64
    requires { count ≤ 6 }
    ensures power { result ≡ 10 ^ count }
    ensures small { result ≤ 10 ^ 6 }
{
    match count {
        0 => 1,
        1 => 10,
        2 => 100,
        3 => 1_000,
        4 => 10_000,
        5 => 100_000,
        _ => 1_000_000,
    }
}

// The number rounded by the digits that follow it.
pub(crate) fn rounded(number: u64, dropped: &[u8]) -> u64
    requires number { number ≤ TOO_LARGE }
    requires dropped { 0 < length dropped.now }
    ensures { result ≡ min (number + (if nat_le 53 (slice_index dropped.now 0) then 1 else 0)) TOO_LARGE }
{
    if dropped[0] >= b'5' {
        (number + 1).min(TOO_LARGE)
    } else {
        number
    }
}
