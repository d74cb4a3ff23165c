// The known texts as an expansion sees them: by their numbers.
ghost use Rattle.std.specs.Prelude.{◌≡◌, ◌+◌, ◌-◌, ◌<◌, ◌^◌, IfSome, length, min, option_map, slice_get};
ghost use Rattle.std.specs.Option.{option_copied};
ghost use Rattle.ld_line.specs.Reading.{line_of};
ghost use Rattle.ld_texts.specs.Known.{lines_at};
ghost use Rattle.ld_texts.specs.Reach.{lines_in};
ghost use Rattle.ld_work.specs.Inside.Found.{text_in};
ghost use Rattle.ld_work.specs.Inside.Working.{ReadsAtMost, texts_of};

use ld_graph::{Reader, Resolved, resolve};
use ld_names::{Name, TextId, lookup_law};
use ld_texts::number_law;

// A line of a text, by how many stand before it.
pub(crate) fn line_behind<'a>(
    reader: &mut Reader<'a>,
    text: TextId,
    before: u32,
) -> Option<&'a [u8]>
    ensures line { option_map line_of (option_copied result) ≡ slice_get ((texts_of reader.old).lines text) before }
    ensures small { IfSome result (λ line. before + 1 < 2 ^ 32) }
    ensures reads { ReadsAtMost reader.old reader.new (min 1 (length ((texts_of reader.old).lines text) - before)) }
{
    let _ = reader.known();
    number_law();
    next_line(reader, text, before)
}

// The line of a known text that so many stand before.
fn next_line<'a>(reader: &mut Reader<'a>, text: TextId, before: u32) -> Option<&'a [u8]>
    ensures line { option_copied result ≡ slice_get (lines_in (lines_at reader.old.texts.known text.0)) before }
    ensures small { IfSome result (λ line. before + 1 < 2 ^ 32) }
    ensures reads { ReadsAtMost reader.old reader.new (min 1 (length (lines_in (lines_at reader.old.texts.known text.0)) - before)) }
{
    if before >= reader.len(text)? {
        return None;
    }
    reader.line(text, before + 1)
}

// How many lines a text has.
pub(crate) fn line_count(reader: &Reader<'_>, text: TextId) -> u32
    ensures { result ≡ length ((texts_of reader.now).lines text) }
{
    let _ = reader.known();
    number_law();
    reader.len(text).unwrap_or(0)
}

pub(crate) fn is_part(reader: &Reader<'_>, text: TextId) -> bool
    ensures { result ≡ (texts_of reader.now).is_part text }
{
    let _ = reader.known();
    number_law();
    reader.is_part(text)
}

// The present text that a name in a text finds.
pub(crate) fn found(reader: &Reader<'_>, from: TextId, name: &Name) -> Option<TextId>
    ensures { result ≡ (texts_of reader.now).found from name.now }
{
    number_law();
    lookup_law();
    text_in(resolve(reader, from, name))
}

fn text_in(resolved: Resolved) -> Option<TextId>
    ensures { result ≡ text_in resolved }
{
    match resolved {
        Resolved::Text(text) => Some(text),
        Resolved::Absent | Resolved::Unknown(_) => None,
    }
}
