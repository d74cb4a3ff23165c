ghost use Rattle.std.specs.Prelude.{◌≡◌};
ghost use Rattle.ld_line.specs.Part.{header_of};
ghost use Rattle.ld_line.specs.Reading.{line_of};

use crate::field::{is_word, split_field};
use crate::meta::names_part_type;

/// Whether an `!LDRAW_ORG` line names a part type; `None` for every other line (Official Library
/// Header Specification). It is what `read_line` says of the line, without memory.
pub fn header_line(line: &[u8]) -> Option<bool>
    ensures { result ≡ header_of (line_of line.now) }
{
    let Some((kind, rest)) = split_field(line) else {
        return None;
    };
    if !is_word(kind, b"0") {
        return None;
    }
    let Some((command, rest)) = split_field(rest) else {
        return None;
    };
    if !is_word(command, b"!LDRAW_ORG") {
        return None;
    }
    Some(names_part_type(rest))
}
