// Texts whose lines are parsed: each line once, where it is first come to.
ghost use Rattle.std.specs.Prelude.{◌≡◌, ◌≤◌, ◌+◌, ◌-◌, ℕ, IfOk, IfSome, OnOk, length, min, slice_get};
ghost use Rattle.ld_entry.specs.NumberedTexts.{NumberedTexts};
ghost use Rattle.ld_work.specs.Inside.Parsing.{AreParsed, IsParsedText, parsed_lines};
ghost use Rattle.ld_work.specs.Inside.Working.{ReadsAtMost, texts_of};

use crate::cursor::Cursor;
use crate::line::{NO_ENTRIES, NO_POINTS, ParsedLine};
use ld_entry::Entry;
use ld_graph::Reader;
use ld_names::TextId;
use ld_num::Point;
use std::alloc::{AllocError, Global};
use std::collections::BTreeMap;

// The lines of a text up to the cursor.
#[derive(Drop)]
pub(crate) struct ParsedText {
    pub(crate) cursor: Cursor,
    pub(crate) lines: Vec<ParsedLine>,
}

impl ParsedText {
    fn new(alloc: Global, reader: &Reader<'_>, text: TextId) -> ParsedText
        ensures text { result.cursor.text ≡ text }
        ensures parsed { IsParsedText (texts_of reader.now) result }
    {
        ParsedText {
            cursor: Cursor::new(reader, text),
            lines: Vec::new(alloc),
        }
    }

    // A line of the text, by how many stand before it.
    pub(crate) fn line(
        &mut self,
        alloc: Global,
        reader: &mut Reader<'_>,
        before: usize,
    ) -> Result<Option<ParsedLine>, AllocError>
        requires parsed { IsParsedText (texts_of reader.old) self.old }
        requires within { before ≤ length self.old.lines.items }
        ensures line { IfOk result (λ line. line ≡ slice_get (parsed_lines (texts_of reader.old) self.old.cursor.text) before) }
        ensures within { IfOk result (λ line. IfSome line (λ here. before + 1 ≤ length self.new.lines.items)) }
        ensures parsed { OnOk result (IsParsedText (texts_of reader.old) self.new) }
        ensures text { self.new.cursor.text ≡ self.old.cursor.text }
        ensures reads { ReadsAtMost reader.old reader.new (min 1 (length ((texts_of reader.old).lines self.old.cursor.text) - before)) }
    {
        let _: [Point; 0] = NO_POINTS;
        let _: [Entry; 0] = NO_ENTRIES;
        if before < self.lines.len() {
            return Ok(line_at(&self.lines, before));
        }
        let Some(line) = self.cursor.read(alloc, reader)? else {
            return Ok(None);
        };
        self.lines.push(line)?;
        Ok(line_at(&self.lines, before))
    }
}

fn line_at(lines: &Vec<ParsedLine>, before: usize) -> Option<ParsedLine>
    ensures { result ≡ slice_get lines.now.items before }
{
    let _: [Point; 0] = NO_POINTS;
    let _: [Entry; 0] = NO_ENTRIES;
    let line = lines.get(before)?;
    Some(*line)
}

// By the numbers of the texts: those that were met, but for the ones on the way.
#[derive(Drop)]
pub(crate) struct ParsedTexts {
    pub(crate) texts: BTreeMap<u32, ParsedText>,
}

impl ParsedTexts {
    pub(crate) fn new(alloc: Global) -> ParsedTexts
        ensures { (texts : NumberedTexts) → AreParsed texts result }
    {
        ParsedTexts {
            texts: BTreeMap::new(alloc),
        }
    }

    // Takes a text out.
    pub(crate) fn take(&mut self, alloc: Global, reader: &Reader<'_>, text: TextId) -> ParsedText
        requires { AreParsed (texts_of reader.now) self.old }
        ensures others { AreParsed (texts_of reader.now) self.new }
        ensures text { result.cursor.text ≡ text }
        ensures parsed { IsParsedText (texts_of reader.now) result }
    {
        match self.texts.remove(&text.0) {
            Some(parsed) => parsed,
            None => ParsedText::new(alloc, reader, text),
        }
    }

    // Puts a text back.
    pub(crate) fn put(&mut self, parsed: ParsedText) -> Result<(), AllocError>
        ensures { OnOk result ((texts : NumberedTexts) → AreParsed texts self.old → IsParsedText texts parsed → AreParsed texts self.new) }
    {
        let _ = self.texts.insert(parsed.cursor.text.0, parsed)?;
        Ok(())
    }
}
