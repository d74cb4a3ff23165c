// Where parts moved to, among the known texts.
ghost use Rattle.std.specs.Prelude.{◌≡◌, IfOk};
ghost use Rattle.ld_line.specs.Moved.{name_in};
ghost use Rattle.ld_entry.specs.NumberedTexts.{known_texts};
ghost use Rattle.ld_engine.specs.Inside.Moving.{moved_name_at, part_behind, part_named};

use crate::expand::on_way;
use crate::seen::{found, is_part};
use ld_line::{Line, read_line};
use ld_names::{Name, TextId, file_laws};
use ld_texts::{Texts, number_law};
use smallvec::SmallVec;
use std::alloc::{AllocError, Global};

// The most texts that moves lead through, the first among them.
const MOST: usize = 64;

// The text at which the moves of a text end, where none is gone through twice.
pub(crate) fn target(alloc: Global, texts: &Texts, text: TextId) -> Result<TextId, AllocError>
    ensures { IfOk result (λ target. target ≡ (known_texts texts.now.known).target text) }
{
    let _ = texts.known();
    number_law();
    file_laws();
    let mut before = SmallVec::<TextId, MOST>::new(alloc);
    let mut last = text;
    while before.len() < MOST - 1 {
        let Some(next) = part_behind(alloc, texts, last)? else {
            return Ok(last);
        };
        if on_way(before.as_slice(), last, next) {
            return Ok(last);
        }
        before.push(last)?;
        last = next;
    }
    Ok(last)
}

// The part text to which a text moved.
fn part_behind(alloc: Global, texts: &Texts, text: TextId) -> Result<Option<TextId>, AllocError>
    ensures { IfOk result (λ next. next ≡ part_behind texts.now.known text) }
{
    match moved_name(alloc, texts, text)? {
        None => Ok(None),
        Some(name) => Ok(part_named(texts, text, &name)),
    }
}

fn part_named(texts: &Texts, from: TextId, name: &Name) -> Option<TextId>
    ensures { result ≡ part_named texts.now.known from name.now }
{
    let file = found(texts, from, name)?;
    if texts.is_part(file) {
        Some(file)
    } else {
        None
    }
}

// The name to which a text moved.
fn moved_name(alloc: Global, texts: &Texts, text: TextId) -> Result<Option<Name>, AllocError>
    ensures { IfOk result (λ name. name ≡ moved_name_at texts.now.known text.0) }
{
    let Some(number) = texts.moved(text) else {
        return Ok(None);
    };
    let Some(line) = texts.line(text, number) else {
        return Ok(None);
    };
    let line = read_line(alloc, line)?;
    Ok(name_in(line))
}

fn name_in(line: Line) -> Option<Name>
    ensures { result ≡ name_in line }
{
    match line {
        Line::Ref { name, .. } => name,
        _ => None,
    }
}
