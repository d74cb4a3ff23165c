// The root of an answer: its lines, and what they give below nothing.
ghost use Rattle.std.specs.Prelude.{◌≡◌, ◌≤◌, ◌<◌, ◌+◌, ◌∷◌, ◌^◌, [], IfOk, None, length, map};
ghost use Rattle.ld_entry.specs.NumberedTexts.{known_texts};
ghost use Rattle.ld_entry.specs.Outcomes.{all, all_by_line};
ghost use Rattle.ld_engine.specs.Gathering.{Gathers, alone};
ghost use Rattle.ld_engine.specs.Inside.Ends.{line_ends};

use crate::expand::expand_line;
use crate::reading::Reading;
use crate::seen::{is_part, line_behind};
use ld_bfc::{next, start};
use ld_entry::{Entry, Fault, Source};
use ld_line::{Line, read_line};
use ld_names::TextId;
use ld_texts::Texts;
use smallvec::SmallVec;
use std::alloc::{AllocError, Global};

// What a root gives, up to its first fault or an entry too many.
#[derive(Drop)]
pub(crate) struct RootExpansion {
    pub(crate) entries: Vec<Entry>,
    // Zero, and then how many entries stand up to and with each line.
    pub(crate) line_ends: Vec<u32>,
    pub(crate) end: Option<Fault>,
}

pub(crate) fn read_lines(
    alloc: Global,
    texts: &Texts,
    text: TextId,
) -> Result<Vec<Line>, AllocError>
    ensures read { IfOk result (λ lines. lines.items ≡ (known_texts texts.now.known).lines text) }
    ensures few { IfOk result (λ lines. length lines.items < 2 ^ 32) }
{
    let mut lines = Vec::with_capacity(alloc, texts.len(text).unwrap_or(0) as usize)?;
    let mut before: u32 = 0;
    while let Some(line) = line_behind(texts, text, before) {
        lines.push(read_line(alloc, line)?)?;
        before += 1;
    }
    Ok(lines)
}

// Expands a root by its lines.
pub(crate) fn expand_root(
    alloc: Global,
    texts: &Texts,
    root: TextId,
    lines: Vec<Line>,
    left: u32,
    most: u32,
) -> Result<RootExpansion, AllocError>
    requires read { lines.items ≡ (known_texts texts.now.known).lines root }
    requires few { length lines.items < 2 ^ 32 }
    ensures gathers { IfOk result (λ given. Gathers most [] given.entries.items given.end (all left (alone (known_texts texts.now.known) [] root))) }
    ensures within { IfOk result (λ given. length given.entries.items ≤ most + 1) }
    ensures ends { IfOk result (λ given. given.end ≡ None → length given.entries.items ≤ most →
        given.line_ends.items ≡ 0 ∷ line_ends 0 (map length (all_by_line left (alone (known_texts texts.now.known) [] root)))) }
{
    let mut line_ends = Vec::with_capacity(alloc, lines.len() + 1)?;
    line_ends.push(0)?;
    let mut given = RootExpansion {
        entries: Vec::new(alloc),
        line_ends,
        end: None,
    };
    let mut way = SmallVec::new(alloc);
    let mut reading = Reading::new(alloc);
    let mut state = start(is_part(texts, root));
    let mut number: u32 = 0;
    let mut rest = lines.into_iter();
    while let Some(line) = rest.next() {
        number += 1;
        let source = Source {
            text: root,
            line: number,
        };
        let after = next(state, &line);
        let entries = &mut given.entries;
        given.end = expand_line(
            alloc,
            texts,
            &mut reading,
            &mut way,
            left,
            most,
            state,
            source,
            line,
            entries,
        )?;
        if given.end.is_some() || given.entries.len() > most as usize {
            return Ok(given);
        }
        given.line_ends.push(given.entries.len() as u32)?;
        state = after;
    }
    Ok(given)
}
