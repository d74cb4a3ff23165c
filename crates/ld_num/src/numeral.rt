// The parts of a numeral, and the size of its number.
ghost use Rattle.std.specs.Prelude.{◌≡◌, ◌≤◌, ◌&&◌, ◌∷◌, min, IfSome, if◌then◌else◌};
ghost use Rattle.std.specs.Option.{option_map};
ghost use Rattle.std.specs.Str.Parse.{AllDigits, digits_value};
ghost use Rattle.ld_num.specs.Front.{IsFront};
ghost use Rattle.ld_num.specs.Number.{begins_with_minus, is_power, millionths_of, numeral_of, powers_of, without_sign};
ghost use Rattle.ld_num.specs.Scan.{after_digits, after_fraction, leading_digits, leading_fraction, numeral_in};

use crate::digits::{TOO_LARGE, capped, digit_count, leading_number, tens};
use crate::scale::scaled;

// The size in millionths of a numeral that stands first, and what stands behind it: up to seven digits, and a period
// with one to six digits after it. `None` for other numerals too.
#[inline]
pub(crate) fn front_size(text: &[u8]) -> Option<(u64, &[u8])>
    ensures { IfSome result (λ front. IsFront text.now front.0 front.1.now) }
{
    let (whole, behind) = leading_number(0, 7, text);
    let Some(fraction) = after_period(behind) else {
        return if behind.len() == text.len() {
            None
        } else {
            Some((whole * 1_000_000, behind))
        };
    };
    let (number, rest) = leading_number(whole, 6, fraction);
    let places = fraction.len() - rest.len();
    if places == 0 {
        return None;
    }
    Some((number * tens(6 - places), rest))
}

fn after_period(text: &[u8]) -> Option<&[u8]>
    ensures { IfSome result (λ rest. text.now ≡ 46 ∷ rest.now) }
{
    match text {
        [b'.', rest @ ..] => Some(rest),
        _ => None,
    }
}

// The size in millionths, but at most `TOO_LARGE`, of the number that a numeral without its sign writes.
pub(crate) fn size_of(text: &[u8]) -> Option<u64>
    ensures { result ≡ option_map (λ n. min (millionths_of n) TOO_LARGE) (numeral_of text.now) }
{
    let (whole, fraction, rest) = split_parts(text);
    if whole.is_empty() && fraction.is_empty() {
        return None;
    }
    let (raised, lowered) = powers(rest)?;
    Some(scaled(whole, fraction, raised, lowered))
}

// The digits before a period, those after it, and what follows them.
#[tactic(auto, using(crate::proofs::Scanned::scanned))]
fn split_parts(text: &[u8]) -> (&[u8], &[u8], &[u8])
    ensures parts { numeral_of text.now ≡ numeral_in result.0.now result.1.now result.2.now }
    ensures whole { AllDigits 10 result.0.now }
    ensures fraction { AllDigits 10 result.1.now }
{
    let (whole, rest) = split_digits(text);
    let (fraction, rest) = split_fraction(rest);
    (whole, fraction, rest)
}

// Whether a minus stands first, and what follows the sign.
pub(crate) fn split_sign(text: &[u8]) -> (bool, &[u8])
    ensures sign { result.0 ≡ begins_with_minus text.now }
    ensures rest { result.1.now ≡ without_sign text.now }
{
    match text {
        [b'+', rest @ ..] => (false, rest),
        [b'-', rest @ ..] => (true, rest),
        _ => (false, text),
    }
}

#[tactic(auto, using(crate::proofs::Values::leading_digits_are))]
fn split_digits(text: &[u8]) -> (&[u8], &[u8])
    ensures front { result.0.now ≡ leading_digits text.now }
    ensures back { result.1.now ≡ after_digits text.now }
    ensures digits { AllDigits 10 result.0.now }
{
    text.split_at(digit_count(text))
}

fn split_fraction(text: &[u8]) -> (&[u8], &[u8])
    ensures front { result.0.now ≡ leading_fraction text.now }
    ensures back { result.1.now ≡ after_fraction text.now }
    ensures digits { AllDigits 10 result.0.now }
{
    match text {
        [b'.', rest @ ..] => split_digits(rest),
        _ => (&[], text),
    }
}

// The powers of ten by which an exponent multiplies, and by which it divides.
#[tactic(auto, unfolding(crate::specs::Number::powers_of))]
fn powers(text: &[u8]) -> Option<(usize, usize)>
    ensures powers { result ≡ powers_of text.now }
    ensures small { IfSome result (λ p. (p.0 ≤ 999) × (p.1 ≤ 999)) }
{
    let [mark, rest @ ..] = text else {
        return Some((0, 0));
    };
    if !matches!(mark, b'e' | b'E') {
        return None;
    }
    let (is_negative, digits) = split_sign(rest);
    let power = power(digits)?;
    Some(if is_negative { (0, power) } else { (power, 0) })
}

fn power(digits: &[u8]) -> Option<usize>
    ensures power { result ≡ (if is_power digits.now then Some (digits_value 10 digits.now) else None) }
    ensures small { IfSome result (λ p. p ≤ 999) }
{
    if is_power(digits) {
        Some(capped(0, digits) as usize)
    } else {
        None
    }
}

#[tactic(auto, using(crate::proofs::Values::all_prefix))]
fn is_power(digits: &[u8]) -> bool
    ensures { result ≡ is_power digits.now }
{
    (1..=3).contains(&digits.len()) && digit_count(digits) == digits.len()
}
