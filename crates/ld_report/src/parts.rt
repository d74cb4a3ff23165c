ghost use Rattle.std.specs.Prelude.{◌≡◌, ◌++◌, ◌+◌, ◌<◌, ◌^◌, IfOk, OnErr, OnOk, length, map};
ghost use Rattle.ld_report.specs.Counting.{added, added_if, total};
ghost use Rattle.ld_report.specs.Extending.{Extends};
ghost use Rattle.ld_report.specs.Parts.{Use, same_use, part_of, part_words, parts_of, parts_text, use_of};
ghost use Rattle.ld_report.specs.Pieces.{line_text};

use crate::pieces::{print_colour, print_file, print_number};
use crate::undoing::or_undone;
use indexmap::IndexMap;
use ld_colour::Colour;
use ld_entry::Entry;
use ld_names::TextId;
use ld_texts::Texts;
use std::alloc::{AllocError, Global};

/// How often a part is used in a colour.
#[derive(Clone, Copy, Debug, PartialEq, Eq)]
pub struct PartCount {
    pub file: TextId,
    pub colour: Colour,
    pub count: u32,
}

type Counts = IndexMap<(TextId, Colour), u32>;

/// The parts list of an answer: for each file and colour among the part entries, in the order in
/// which they come first, how often they come.
#[tactic(auto, unfolding(crate::specs::Parts::parts_of))]
pub fn parts_list(alloc: Global, entries: &[Entry]) -> Result<Vec<PartCount>, AllocError>
    requires { length entries.now < 2 ^ 32 }
    ensures ok { IfOk result (λ parts. parts.items ≡ parts_of entries.now) }
{
    let mut counts = IndexMap::new(alloc);
    for entry in entries {
        count_entry(&mut counts, entry)?;
    }
    listed(alloc, &counts)
}

fn count_entry(counts: &mut Counts, entry: &Entry) -> Result<(), AllocError>
    requires { total counts.old.entries + 1 < 2 ^ 32 }
    ensures { OnOk result (counts.new.entries ≡ added_if counts.old.entries (use_of entry.now)) }
{
    match used(entry) {
        Some(used) => count(counts, used),
        None => Ok(()),
    }
}

fn used(entry: &Entry) -> Option<(TextId, Colour)>
    ensures { result ≡ use_of entry.now }
{
    match entry {
        Entry::Part { file, colour, .. } => Some((*file, *colour)),
        Entry::Drawn { .. } => None,
    }
}

fn count(counts: &mut Counts, used: (TextId, Colour)) -> Result<(), AllocError>
    requires { total counts.old.entries + 1 < 2 ^ 32 }
    ensures { OnOk result (counts.new.entries ≡ added counts.old.entries used) }
{
    use_law();
    let before = counts.get(&used).copied().unwrap_or(0);
    counts.insert(used, before + 1)?;
    Ok(())
}

// Uses are equal where their files and their colours are.
fn use_law()
    ensures { (used other : Use) → ⟦<(TextId, Colour) as PartialEq>⟧.eq used other ≡ same_use used other }
{}

fn listed(alloc: Global, counts: &Counts) -> Result<Vec<PartCount>, AllocError>
    ensures { IfOk result (λ parts. parts.items ≡ map part_of counts.now.entries) }
{
    counts
        .iter()
        .map(|((file, colour), count)| PartCount {
            file: *file,
            colour: *colour,
            count: *count,
        })
        .collect(alloc)
}

/// Appends a parts list, a line `COUNT COLOUR FILE` for each part, in this project's own words.
///
/// # Errors
///
/// Want of memory. The text is then as before.
pub fn print_parts(texts: &Texts, parts: &[PartCount], into: &mut Vec<u8>) -> Result<(), AllocError>
    ensures ok { OnOk result (into.new.items ≡ into.old.items ++ parts_text texts.now.known parts.now) }
    ensures err { OnErr result (into.new.items ≡ into.old.items) }
{
    let length = into.len();
    let outcome = append_parts(texts, parts, into);
    or_undone(outcome, length, into)
}

#[tactic(auto, using(crate::proofs::Extending::extending), unfolding(crate::specs::Parts::parts_text))]
fn append_parts(texts: &Texts, parts: &[PartCount], into: &mut Vec<u8>) -> Result<(), AllocError>
    ensures ok { OnOk result (into.new.items ≡ into.old.items ++ parts_text texts.now.known parts.now) }
    ensures keeps { Extends into.old.items into.new.items }
{
    for part in parts {
        print_part(texts, part, into)?;
    }
    Ok(())
}

#[tactic(auto, using(crate::proofs::Extending::extending))]
fn print_part(texts: &Texts, part: &PartCount, into: &mut Vec<u8>) -> Result<(), AllocError>
    ensures ok { OnOk result (into.new.items ≡ into.old.items ++ line_text (part_words texts.now.known part.now)) }
    ensures keeps { Extends into.old.items into.new.items }
{
    print_number(u64::from(part.count), into)?;
    into.push(b' ')?;
    print_colour(part.colour, into)?;
    into.push(b' ')?;
    print_file(texts, part.file, into)?;
    into.push(b'\n')?;
    Ok(())
}
