// Digits with their period moved, rounded to a whole number.
ghost use Rattle.std.specs.Prelude.{◌≡◌, ◌+◌, ◌*◌, ◌^◌, ◌<◌, ◌≤◌, ◌++◌, length, min};
ghost use Rattle.std.specs.Str.Parse.{AllDigits, digits_value};
ghost use Rattle.ld_num.specs.Number.{millionths_of, nearest};

use crate::digits::{TOO_LARGE, capped, rounded, with_zeros};

// The size in millionths of a numeral's number.
#[tactic(auto, unfolding(crate::specs::Number::millionths_of))]
pub(crate) fn scaled(whole: &[u8], fraction: &[u8], raised: usize, lowered: usize) -> u64
    requires whole_digits { AllDigits 10 whole.now }
    requires fraction_digits { AllDigits 10 fraction.now }
    requires small { raised ≤ 999 }
    ensures { result ≡ min (millionths_of (record { whole = whole.now; fraction = fraction.now; raised = raised; lowered = lowered })) TOO_LARGE }
{
    let places = 6 + raised;
    if lowered <= places {
        moved_right(whole, fraction, places - lowered)
    } else {
        moved_left(whole, fraction, lowered - places)
    }
}

fn moved_right(whole: &[u8], fraction: &[u8], places: usize) -> u64
    requires whole_digits { AllDigits 10 whole.now }
    requires fraction_digits { AllDigits 10 fraction.now }
    ensures { result ≡ min (nearest (digits_value 10 (whole.now ++ fraction.now) * 10 ^ places) (10 ^ length fraction.now)) TOO_LARGE }
{
    let size = capped(0, whole);
    if places < fraction.len() {
        let (kept, dropped) = fraction.split_at(places);
        rounded(capped(size, kept), dropped)
    } else {
        with_zeros(capped(size, fraction), places - fraction.len())
    }
}

fn moved_left(whole: &[u8], fraction: &[u8], places: usize) -> u64
    requires whole_digits { AllDigits 10 whole.now }
    requires fraction_digits { AllDigits 10 fraction.now }
    requires moved { 0 < places }
    ensures { result ≡ min (nearest (digits_value 10 (whole.now ++ fraction.now)) (10 ^ (length fraction.now + places))) TOO_LARGE }
{
    if whole.len() < places {
        return 0;
    }
    let (kept, dropped) = whole.split_at(whole.len() - places);
    rounded(capped(0, kept), dropped)
}
