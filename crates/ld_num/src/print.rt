ghost use Rattle.std.specs.Prelude.{◌≡◌, ◌+◌, ◌-◌, ◌^◌, ◌%◌, ◌<◌, ◌≤◌, ◌==◌, ◌++◌, length, if◌then◌else◌, OnOk, OnErr};
ghost use Rattle.std.specs.List.{suffix_len};
ghost use Rattle.std.specs.Fmt.{decimal};
ghost use Rattle.ld_num.specs.Front.{minus_if};
ghost use Rattle.ld_num.specs.Number.{dec_of};
ghost use Rattle.ld_num.specs.Text.{after_period, dec_text, sign_text, six_digits, without_last_zeros};
ghost use Rattle.ld_num.specs.Short.{short_text, three_digits, window};

use crate::Dec;
use itoa::Buffer;
use std::alloc::AllocError;

const MILLION: u64 = 1_000_000;

// How many bytes are copied at once.
const COPIED: usize = 16;

// The digits of each number below a hundred.
static PAIRS: [u8; 200] =
    *b"00010203040506070809101112131415161718192021222324252627282930313233343536373839404142434445464748495051525354555657585960616263646566676869707172737475767778798081828384858687888990919293949596979899";

/// Appends a number in decimals: `-` where it is negative, the whole part without leading zeros, and, where there is
/// a fraction, a period and its digits without trailing zeros. Zero is `0`.
#[tactic(auto, using(crate::proofs::Printed::dec_again, crate::proofs::Shorts::dec_text_is, crate::proofs::Shorts::whole_is))]
pub fn print_dec(value: Dec, into: &mut Vec<u8>) -> Result<(), AllocError>
    ensures ok { OnOk result (into.new.items ≡ into.old.items ++ dec_text value) }
    ensures err { OnErr result (into.new.items ≡ into.old.items) }
    ensures read_back { dec_of (dec_text value) ≡ Ok value }
{
    let size = value.millionths().unsigned_abs();
    if size >= 1_000 * MILLION {
        print_long(value, into)
    } else if size % MILLION == 0 {
        print_whole((size / MILLION) as u32, value.millionths() < 0, into)
    } else if size % 1_000 == 0 {
        print_thousandths(size, value.millionths() < 0, into)
    } else {
        print_short(size, value.millionths() < 0, into)
    }
}

// A whole number below a thousand.
fn print_whole(number: u32, is_negative: bool, into: &mut Vec<u8>) -> Result<(), AllocError>
    requires { number < 1000 }
    ensures ok { OnOk result (into.new.items ≡ into.old.items ++ (minus_if is_negative ++ decimal number)) }
    ensures err { OnErr result (into.new.items ≡ into.old.items) }
{
    let [h, t, u] = three_digits(number);
    if number >= 100 {
        let text = [b'-', h, t, u, 0, 0, 0, 0, 0, 0, 0, 0, 0, 0, 0, 0, 0];
        append(&text, 4, 0, is_negative, into)
    } else if number >= 10 {
        let text = [b'-', t, u, 0, 0, 0, 0, 0, 0, 0, 0, 0, 0, 0, 0, 0, 0];
        append(&text, 3, 0, is_negative, into)
    } else {
        let text = [b'-', u, 0, 0, 0, 0, 0, 0, 0, 0, 0, 0, 0, 0, 0, 0, 0];
        append(&text, 2, 0, is_negative, into)
    }
}

// A size below a thousand, whose text has few forms, is appended at once.
fn print_short(size: u64, is_negative: bool, into: &mut Vec<u8>) -> Result<(), AllocError>
    requires { size < 10 ^ 9 }
    ensures ok { OnOk result (into.new.items ≡ into.old.items ++ short_text is_negative size) }
    ensures err { OnErr result (into.new.items ≡ into.old.items) }
{
    let [h, t, u] = three_digits((size / MILLION) as u32);
    let places = places_of(size);
    let count = kept(&places);
    let [a, b, c, d, e, f] = places;
    if size >= 100 * MILLION {
        let text = [b'-', h, t, u, b'.', a, b, c, d, e, f, 0, 0, 0, 0, 0, 0];
        append(&text, 4, count, is_negative, into)
    } else if size >= 10 * MILLION {
        let text = [b'-', t, u, b'.', a, b, c, d, e, f, 0, 0, 0, 0, 0, 0, 0];
        append(&text, 3, count, is_negative, into)
    } else {
        let text = [b'-', u, b'.', a, b, c, d, e, f, 0, 0, 0, 0, 0, 0, 0, 0];
        append(&text, 2, count, is_negative, into)
    }
}

// The same for a whole number of thousandths.
fn print_thousandths(size: u64, is_negative: bool, into: &mut Vec<u8>) -> Result<(), AllocError>
    requires short { size < 10 ^ 9 }
    requires thousandths { size % 1000 ≡ 0 }
    ensures ok { OnOk result (into.new.items ≡ into.old.items ++ short_text is_negative size) }
    ensures err { OnErr result (into.new.items ≡ into.old.items) }
{
    let [h, t, u] = three_digits((size / MILLION) as u32);
    let places = three_digits((size % MILLION) as u32 / 1_000);
    let count = kept(&places);
    let [a, b, c] = places;
    if size >= 100 * MILLION {
        let text = [b'-', h, t, u, b'.', a, b, c, 0, 0, 0, 0, 0, 0, 0, 0, 0];
        append(&text, 4, count, is_negative, into)
    } else if size >= 10 * MILLION {
        let text = [b'-', t, u, b'.', a, b, c, 0, 0, 0, 0, 0, 0, 0, 0, 0, 0];
        append(&text, 3, count, is_negative, into)
    } else {
        let text = [b'-', u, b'.', a, b, c, 0, 0, 0, 0, 0, 0, 0, 0, 0, 0, 0];
        append(&text, 2, count, is_negative, into)
    }
}

// Of a minus, the whole part, a period, the fraction and bytes behind: appends what is printed. The same number of
// bytes is copied for every number, since that takes no call, and what is too much is cut off.
#[inline(always)]
fn append(
    text: &[u8],
    point: usize,
    count: usize,
    is_negative: bool,
    into: &mut Vec<u8>,
) -> Result<(), AllocError>
    requires text { length text.now ≡ COPIED + 1 }
    requires point { 1 ≤ point }
    requires within { point + 1 + count ≤ COPIED }
    ensures ok { OnOk result (into.new.items ≡ into.old.items ++ window text.now point count is_negative) }
    ensures err { OnErr result (into.new.items ≡ into.old.items) }
{
    let start = shown_from(is_negative);
    let end = shown_to(point, count);
    let before = into.len();
    into.extend_from_slice(&text[start..start + COPIED])?;
    into.truncate(before + (end - start));
    Ok(())
}

fn shown_from(is_negative: bool) -> usize
    ensures { result ≡ (if is_negative then 0 else 1) }
{
    usize::from(!is_negative)
}

fn shown_to(point: usize, count: usize) -> usize
    requires { point + 1 + count ≤ COPIED }
    ensures end { result ≡ (if count == 0 then point else point + 1 + count) }
    ensures within { result ≤ COPIED }
{
    if count == 0 { point } else { point + 1 + count }
}

fn print_long(value: Dec, into: &mut Vec<u8>) -> Result<(), AllocError>
    ensures ok { OnOk result (into.new.items ≡ into.old.items ++ dec_text value) }
    ensures err { OnErr result (into.new.items ≡ into.old.items) }
{
    let size = value.millionths().unsigned_abs();
    let sign = sign_of(value);
    let mut buffer = Buffer::new();
    let whole = buffer.format(size / MILLION).as_bytes();
    let places = places_of(size);
    let digits = trimmed(&places);
    let period = period_before(digits);
    into.reserve(sign.len() + whole.len() + period.len() + digits.len())?;
    into.extend_from_slice(sign)?;
    into.extend_from_slice(whole)?;
    into.extend_from_slice(period)?;
    into.extend_from_slice(digits)
}

fn sign_of(value: Dec) -> &'static [u8]
    ensures { result.now ≡ sign_text value }
{
    if value.millionths() < 0 { b"-" } else { b"" }
}

fn period_before(digits: &[u8]) -> &'static [u8]
    ensures text { result.now ++ digits.now ≡ after_period digits.now }
    ensures short { length result.now ≤ 1 }
{
    if digits.is_empty() { b"" } else { b"." }
}

// The six digits of the millionths.
#[tactic(auto, using(crate::proofs::Shorts::six_by_threes))]
fn places_of(size: u64) -> [u8; 6]
    ensures { result ≡ six_digits size }
{
    let rest = (size % MILLION) as u32;
    let [a, b, c] = three_digits(rest / 1_000);
    let [d, e, f] = three_digits(rest % 1_000);
    [a, b, c, d, e, f]
}

#[tactic(auto, using(crate::proofs::Pairs::digits_are))]
fn three_digits(number: u32) -> [u8; 3]
    requires { number < 1000 }
    ensures { result ≡ three_digits number }
{
    let from = (number % 100) as usize * 2;
    [digit(number / 100), PAIRS[from], PAIRS[from + 1]]
}

#[inline(always)]
fn digit(number: u32) -> u8
    requires { number < 10 }
    ensures { result ≡ 48 + number }
{
    b'0' + number as u8
}

fn trimmed(digits: &[u8]) -> &[u8]
    ensures { result.now ≡ without_last_zeros digits.now }
{
    &digits[..kept(digits)]
}

// How many digits there are up to the last that is not zero.
fn kept(digits: &[u8]) -> usize
    ensures count { result ≡ length digits.now - suffix_len (λ b. b == 48) digits.now }
    ensures within { result ≤ length digits.now }
{
    let mut count = digits.len();
    while count > 0 && digits[count - 1] == b'0' {
        count -= 1;
    }
    count
}
