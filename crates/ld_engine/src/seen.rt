// The known texts as an expansion sees them: by their numbers.
ghost use Rattle.std.specs.Prelude.{◌≡◌, ◌+◌, ◌<◌, ◌^◌, IfSome, option_map, slice_get};
ghost use Rattle.std.specs.Option.{option_copied};
ghost use Rattle.ld_line.specs.Reading.{line_of};
ghost use Rattle.ld_texts.specs.Known.{lines_at};
ghost use Rattle.ld_texts.specs.Reach.{lines_in};
ghost use Rattle.ld_entry.specs.NumberedTexts.{known_texts};
ghost use Rattle.ld_engine.specs.Found.{sought_number};

use crate::find::{Sought, seek};
use ld_names::{Name, TextId};
use ld_texts::{Texts, number_law};

// A line of a text, by how many stand before it.
pub(crate) fn line_behind(texts: &Texts, text: TextId, before: u32) -> Option<&[u8]>
    ensures line { option_map line_of (option_copied result) ≡ slice_get ((known_texts texts.now.known).lines text) before }
    ensures small { IfSome result (λ line. before + 1 < 2 ^ 32) }
{
    let _ = texts.known();
    number_law();
    next_line(texts, text, before)
}

// The line of a known text that so many stand before.
pub(crate) fn next_line(texts: &Texts, text: TextId, before: u32) -> Option<&[u8]>
    ensures line { option_copied result ≡ slice_get (lines_in (lines_at texts.now.known text.0)) before }
    ensures small { IfSome result (λ line. before + 1 < 2 ^ 32) }
{
    if before >= texts.len(text)? {
        return None;
    }
    texts.line(text, before + 1)
}

pub(crate) fn is_part(texts: &Texts, text: TextId) -> bool
    ensures { result ≡ (known_texts texts.now.known).is_part text }
{
    let _ = texts.known();
    number_law();
    texts.is_part(text)
}

// The present text that a name in a text finds.
pub(crate) fn found(texts: &Texts, from: TextId, name: &Name) -> Option<TextId>
    ensures { result ≡ (known_texts texts.now.known).found from name.now }
{
    let _ = texts.known();
    number_law();
    let Some(file) = texts.file(from) else {
        return None;
    };
    number_of(seek(texts, file.folder, name))
}

fn number_of(sought: Sought) -> Option<TextId>
    ensures { result ≡ sought_number sought }
{
    match sought {
        Sought::Text(id) => Some(id),
        Sought::Absent | Sought::Unknown(_) => None,
    }
}
