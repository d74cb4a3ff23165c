ghost use Rattle.std.specs.Prelude.{◌≡◌, ◌<◌, ◌^◌, length, map};
ghost use Rattle.ld_line.specs.Moved.{has_moved_title, moved_reference, only_reference};
ghost use Rattle.ld_line.specs.Reading.{line_of};

use crate::field::{is_word, split_field};
use crate::read::{Shown, shown_line};
use ld_names::Bytes;

/// The number of the one reference of lines whose first begins with `0 ~Moved to`; `None` where there
/// is none or more than one, and where a line draws. A part text of such lines only says where a part
/// moved to.
#[tactic(auto, unfolding(crate::specs::Moved::moved_reference))]
pub fn moved_reference(lines: &[Bytes]) -> Option<u32>
    requires { length lines.now < 2 ^ 32 }
    ensures { result ≡ moved_reference lines.now }
{
    if has_moved_title(lines) {
        only_reference(lines)
    } else {
        None
    }
}

fn has_moved_title(lines: &[Bytes]) -> bool
    ensures { result ≡ has_moved_title lines.now }
{
    let Some(title) = lines.first() else {
        return false;
    };
    let Some((kind, rest)) = split_field(title.as_slice()) else {
        return false;
    };
    let Some((moved, rest)) = split_field(rest) else {
        return false;
    };
    let Some((to, _)) = split_field(rest) else {
        return false;
    };
    is_word(kind, b"0") && is_word(moved, b"~Moved") && is_word(to, b"to")
}

fn only_reference(lines: &[Bytes]) -> Option<u32>
    requires { length lines.now < 2 ^ 32 }
    ensures { result ≡ only_reference (map line_of lines.now) }
{
    let mut found = None;
    let mut before = 0u32;
    let mut rest = lines;
    while let Some((line, more)) = rest.split_first() {
        match shown_line(line.as_slice()) {
            Shown::Nothing => {}
            Shown::Reference if found.is_none() => found = Some(before + 1),
            Shown::Reference | Shown::Drawing => return None,
        }
        before += 1;
        rest = more;
    }
    found
}
