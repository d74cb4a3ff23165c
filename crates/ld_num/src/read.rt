ghost use Rattle.std.specs.Prelude.{◌≡◌, ◌++◌, ◌≤◌, length, IfSome};
ghost use Rattle.std.specs.List.{position_or_len};
ghost use Rattle.ld_num.specs.Field.{after_front_field, front_field, is_blank};
ghost use Rattle.ld_num.specs.Front.{IsFrontNumber, is_field_end, minus_if};
ghost use Rattle.ld_num.specs.Number.{dec_of};
ghost use Rattle.ld_num.specs.Scan.{in_range};

use crate::digits::MAX_SIZE;
use crate::numeral::{front_size, size_of, split_sign};
use crate::{Dec, NumError};

/// Reads a numeral: at most one sign; decimal digits with at most one period among, before or after them, and at least
/// one digit; at most one exponent, which is `e` or `E`, at most one sign and one to three digits.
///
/// The number is the nearest whole number of millionths, and of two equally near ones that of greater size.
/// `NotANumber` comes exactly where the bytes are no numeral, and `OutOfRange` exactly where they are one and the
/// rounded size is above 10^12 millionths.
pub fn read_dec(text: &[u8]) -> Result<Dec, NumError>
    ensures { result ≡ dec_of text.now }
{
    if let Some((number, rest)) = split_plain(text)
        && rest.is_empty()
    {
        return Ok(number);
    }
    read_numeral(text)
}

/// Reads the field at the front of a text as `read_dec` does, and gives what stands behind it: nothing, or a space or a
/// tab and the bytes after it (File Format 1.0.2, "File Format"). The field is empty where a blank or nothing stands
/// first, and then it is no numeral.
///
/// For a line of many numbers this is faster than to cut its fields first: most numerals are read in one pass.
#[inline]
pub fn split_dec(text: &[u8]) -> (Result<Dec, NumError>, &[u8])
    ensures number { result.0 ≡ dec_of (front_field text.now) }
    ensures rest { result.1.now ≡ after_front_field text.now }
{
    if let Some((number, rest)) = split_plain(text) {
        return (Ok(number), rest);
    }
    let (field, rest) = text.split_at(field_end(text));
    (read_numeral(field), rest)
}

#[tactic(auto, using(crate::proofs::Sizes::in_range_is), unfolding(crate::specs::Number::dec_of, crate::specs::Number::millionths_of))]
fn read_numeral(text: &[u8]) -> Result<Dec, NumError>
    ensures { result ≡ dec_of text.now }
{
    let (is_negative, unsigned) = split_sign(text);
    match size_of(unsigned) {
        Some(size) => in_range(is_negative, size),
        None => Err(NumError::NotANumber),
    }
}

// The same in one pass as `split_dec`, for a numeral in range without `+` and exponent and with at most six decimals.
// `None` for some of these and for all other fields.
#[inline]
fn split_plain(text: &[u8]) -> Option<(Dec, &[u8])>
    ensures { IfSome result (λ cut. IsFrontNumber text.now cut.0 cut.1.now) }
{
    let (is_negative, unsigned) = split_minus(text);
    let (size, rest) = front_size(unsigned)?;
    let Ok(number) = in_range(is_negative, size) else {
        return None;
    };
    if !is_field_end(rest) {
        return None;
    }
    Some((number, rest))
}

fn field_end(text: &[u8]) -> usize
    ensures end { result ≡ position_or_len is_blank text.now }
    ensures within { result ≤ length text.now }
{
    text.iter()
        .position(|byte| matches!(byte, b' ' | b'\t'))
        .unwrap_or(text.len())
}

fn is_field_end(text: &[u8]) -> bool
    ensures { result ≡ is_field_end text.now }
{
    match text {
        [] => true,
        [byte, ..] => matches!(byte, b' ' | b'\t'),
    }
}

fn split_minus(text: &[u8]) -> (bool, &[u8])
    ensures { text.now ≡ minus_if result.0 ++ result.1.now }
{
    match text {
        [b'-', rest @ ..] => (true, rest),
        _ => (false, text),
    }
}

fn in_range(is_negative: bool, size: u64) -> Result<Dec, NumError>
    ensures { result ≡ in_range is_negative size }
{
    if size > MAX_SIZE {
        return Err(NumError::OutOfRange);
    }
    let size = size as i64;
    Ok(Dec::from_millionths(if is_negative { -size } else { size }))
}
