ghost use Rattle.std.specs.Prelude.{◌≡◌, ◌+◌, ◌-◌, ◌^◌, ◌<◌, ◌≤◌, [], IsTrue, None, Some, length, map, min, slice_index_or, slice_set};
ghost use Rattle.std.specs.List.{insert, remove};
ghost use Rattle.std.specs.Option.{option_copied};
ghost use Rattle.std.specs.Vec.{vec_capacity, vec_len};
ghost use Rattle.ld_line.specs.Moved.{moved_line};
ghost use Rattle.ld_line.specs.Part.{header_of, is_part_by_header, is_part_text};
ghost use Rattle.ld_line.specs.Reading.{line_of};
ghost use Rattle.ld_texts.specs.Editing.{misses};
ghost use Rattle.ld_texts.specs.Inside.Kept.{IsHeader};
ghost use Rattle.ld_texts.specs.Known.{numbered, weight_of_lines, weight_of_text};

use crate::edit::EditRefusal;
use ld_line::{header_line, moved_reference};
use ld_names::{Bytes, Folder, Lines, List};
use std::alloc::Global;
use std::marker::Model;
use std::mem;

// The lines of a present file, with what is asked of them often.
#[derive(Drop)]
pub(crate) struct KnownText {
    lines: Vec<Bytes>,
    weight: u64,
    // None where the folder alone tells that the text is a part text.
    part_by_header: Option<bool>,
}

impl Model for KnownText {
    ghost use Rattle.std.specs.Prelude.{List, ℕ};
    ghost use Rattle.ld_texts.specs.Inside.Kept.{IsMeasured};

    ghost Value = { List (List ℕ) };

    ghost view = { λ text. text.lines.items };

    ghost invariant = { λ text. IsMeasured text.lines.items text.weight text.part_by_header };
}

impl KnownText {
    pub(crate) fn new(folder: Folder, lines: Lines, weight: u64) -> KnownText
        requires { weight ≡ weight_of_lines lines }
        ensures { result ≡ lines }
    {
        let part_by_header = match folder {
            Folder::Model(_) => Some(part_by_header(lines.as_slice())),
            Folder::Parts | Folder::P => None,
        };
        KnownText {
            lines: lines.into_vec(),
            weight,
            part_by_header,
        }
    }

    pub(crate) fn empty(alloc: Global) -> KnownText
        ensures { result ≡ [] }
    {
        KnownText {
            lines: Vec::new(alloc),
            weight: 0,
            part_by_header: Some(false),
        }
    }

    // The text in another folder, with its header read where that folder wants it.
    pub(crate) fn moved(self, folder: Folder) -> KnownText
        ensures { result ≡ self }
    {
        let KnownText {
            lines,
            weight,
            part_by_header,
        } = self;
        match part_by_header {
            Some(_) => KnownText {
                lines,
                weight,
                part_by_header,
            },
            None => KnownText::new(folder, List::from_vec(lines), weight),
        }
    }

    pub(crate) fn lines(&self) -> &[Bytes]
        ensures { result.now ≡ self.now }
    {
        self.lines.as_slice()
    }

    pub(crate) fn line(&self, number: u32) -> Option<&[u8]>
        ensures { option_copied result ≡ numbered self.now number }
    {
        let before = number.checked_sub(1)?;
        Some(self.lines.as_slice().get(before as usize)?.as_slice())
    }

    pub(crate) fn weight(&self) -> u64
        ensures { result ≡ weight_of_lines self.now }
    {
        self.weight
    }

    #[tactic(auto, unfolding(ld_line::specs::Part::is_part_text))]
    pub(crate) fn is_part(&self, folder: Folder) -> bool
        ensures { result ≡ is_part_text folder self.now }
    {
        match (folder, self.part_by_header) {
            (Folder::Parts | Folder::P, _) => true,
            (Folder::Model(_), Some(part)) => part,
            (Folder::Model(_), None) => part_by_header(self.lines.as_slice()),
        }
    }

    // The number of the one reference, where the text is a moved text in this folder.
    #[tactic(auto, unfolding(ld_line::specs::Moved::moved_line))]
    pub(crate) fn moved_line(&self, folder: Folder) -> Option<u32>
        requires { length self.now < 2 ^ 32 }
        ensures { result ≡ moved_line folder self.now }
    {
        if self.is_part(folder) {
            moved_reference(self.lines())
        } else {
            None
        }
    }

    // Why no line of this number is there, where one may stand so far behind the last.
    pub(crate) fn misses(&self, further: u32, line: u32) -> Option<EditRefusal>
        requires small { length self.now < 2 ^ 32 }
        requires near { further ≤ 1 }
        ensures { result ≡ misses further line (Some self.now) }
    {
        let len = self.lines.len();
        if line == 0 || len + (further as usize) < line as usize {
            return Some(EditRefusal::NoLine(len as u32));
        }
        None
    }

    // The weight of the line at a place.
    pub(crate) fn weight_at(&self, place: usize) -> u64
        requires { place < length self.now }
        ensures { result ≡ length (slice_index_or self.now place []) + 32 }
    {
        line_weight(self.lines[place].as_slice())
    }

    // Puts a line in the place of another.
    pub(crate) fn set(&mut self, place: usize, line: Bytes)
        requires place { place < length self.old }
        requires weight { weight_of_lines self.old + length line < 2 ^ 63 }
        ensures { self.new ≡ slice_set self.old place line }
    {
        let gone = self.weight_at(place);
        let plain = are_plain(self.lines[place].as_slice(), line.as_slice());
        self.weight = self.weight - gone + line_weight(line.as_slice());
        self.lines[place] = line;
        self.part_by_header = header_after(plain, self.part_by_header, self.lines.as_slice());
    }

    // Puts a line before the one at a place, or behind the last one. The lines go into the given
    // memory where their own is full.
    pub(crate) fn insert(&mut self, place: usize, line: Bytes, room: Vec<Bytes>)
        requires place { place ≤ length self.old }
        requires weight { weight_of_lines self.old + length line < 2 ^ 63 }
        requires empty { room.items ≡ [] }
        requires room { length self.old + 1 ≤ vec_capacity room }
        ensures { self.new ≡ insert self.old place line }
    {
        let plain = is_plain(line.as_slice());
        self.weight += line_weight(line.as_slice());
        make_room(&mut self.lines, room);
        self.lines.insert(place, line).unwrap();
        self.part_by_header = header_after(plain, self.part_by_header, self.lines.as_slice());
    }

    // Takes the line at a place out.
    pub(crate) fn remove(&mut self, place: usize)
        requires { place < length self.old }
        ensures { self.new ≡ remove self.old place }
    {
        let gone = self.weight_at(place);
        let plain = is_plain(self.lines[place].as_slice());
        self.weight -= gone;
        let _ = self.lines.remove(place);
        self.part_by_header = header_after(plain, self.part_by_header, self.lines.as_slice());
    }
}

// Sees that there is room for one more line: where there is none, the lines go into the given memory.
fn make_room(lines: &mut Vec<Bytes>, room: Vec<Bytes>)
    requires empty { room.items ≡ [] }
    requires room { length lines.old.items + 1 ≤ vec_capacity room }
    ensures items { lines.new.items ≡ lines.old.items }
    ensures room { vec_len lines.new < vec_capacity lines.new }
{
    if lines.len() == lines.capacity() {
        let mut old = mem::replace(lines, room);
        lines.append(&mut old).unwrap();
    }
}

// The weight of a line.
pub(crate) fn line_weight(line: &[u8]) -> u64
    ensures { result ≡ length line.now + 32 }
{
    line.len() as u64 + 32
}

// The weight of lines, or 2^64 - 1 where they weigh more.
pub(crate) fn weigh(lines: &[Bytes]) -> u64
    ensures { result ≡ min (weight_of_lines lines.now) (2 ^ 64 - 1) }
{
    let mut weight: u64 = 0;
    for line in lines {
        weight = weight
            .saturating_add(line.as_slice().len() as u64)
            .saturating_add(32);
    }
    weight
}

// The weight of a text, which is nothing where it is absent.
pub(crate) fn weigh_text(text: &Option<KnownText>) -> u64
    ensures { result ≡ weight_of_text text.now }
{
    match text {
        None => 0,
        Some(text) => text.weight(),
    }
}

// Whether a line is no !LDRAW_ORG line.
fn is_plain(line: &[u8]) -> bool
    ensures { IsTrue result → header_of (line_of line.now) ≡ None }
{
    header_line(line).is_none()
}

fn are_plain(line: &[u8], other: &[u8]) -> bool
    ensures line { IsTrue result → header_of (line_of line.now) ≡ None }
    ensures other { IsTrue result → header_of (line_of other.now) ≡ None }
{
    is_plain(line) && is_plain(other)
}

// What is known of the header after a change, which may be one of plain lines alone.
fn header_after(plain: bool, before: Option<bool>, lines: &[Bytes]) -> Option<bool>
    requires { IsTrue plain → IsHeader before lines.now }
    ensures { IsHeader result lines.now }
{
    if plain || before.is_none() {
        before
    } else {
        Some(part_by_header(lines))
    }
}

// Whether the first !LDRAW_ORG line names the type of a part.
fn part_by_header(lines: &[Bytes]) -> bool
    ensures { result ≡ is_part_by_header (map line_of lines.now) }
{
    let mut rest = lines;
    while let [line, more @ ..] = rest {
        if let Some(part) = header_line(line.as_slice()) {
            return part;
        }
        rest = more;
    }
    false
}
