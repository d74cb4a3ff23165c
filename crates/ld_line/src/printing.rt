ghost use Rattle.std.specs.Prelude.{◌≡◌, ◌<◌, true};
ghost use Rattle.std.specs.Fmt.{digit_glyph};
ghost use Rattle.ld_line.specs.Printing.{kind_word, six_hex};

use crate::line::Kind;

/// The type of a line that draws this, as it stands in a text (File Format 1.0.2, "Line Types").
pub fn kind_word(kind: Kind) -> &'static [u8]
    ensures { result.now ≡ kind_word kind }
{
    match kind {
        Kind::Line2 => b"2",
        Kind::Tri => b"3",
        Kind::Quad => b"4",
        Kind::Opt => b"5",
    }
}

/// The six lowest hexadecimal digits of a number, in capitals, as a direct colour has them behind
/// `0x2` (File Format 1.0.2, "Colours").
pub fn six_hex(value: u32) -> [u8; 6]
    ensures { result ≡ six_hex value }
{
    [
        hex_digit(value / 0x100000 % 16),
        hex_digit(value / 0x10000 % 16),
        hex_digit(value / 0x1000 % 16),
        hex_digit(value / 0x100 % 16),
        hex_digit(value / 0x10 % 16),
        hex_digit(value % 16),
    ]
}

#[inline(always)]
fn hex_digit(digit: u32) -> u8
    requires { digit < 16 }
    ensures { result ≡ digit_glyph true digit }
{
    if digit < 10 {
        b'0' + digit as u8
    } else {
        b'7' + digit as u8
    }
}
