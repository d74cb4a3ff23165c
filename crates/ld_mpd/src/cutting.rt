ghost use Rattle.std.specs.Prelude.{◌≡◌, ◌≢◌, ◌≤◌, ◌<◌, [], ◌∷◌, ◌++◌, IfOk, IfSome, MatchOption, None, OnErr, OnOk, Some, length, true};
ghost use Rattle.std.specs.Result.{IsOk, result_ok};
ghost use Rattle.ld_names.specs.Normal.{normal_of};
ghost use Rattle.ld_line.specs.Block.{block_line_of};
ghost use Rattle.ld_line.specs.Cut.{lines_from};
ghost use Rattle.ld_line.specs.Field.{after_field, after_fields};
ghost use Rattle.ld_mpd.specs.Blocks.{BeginsSame, IsText, behind_file, block, block_at, block_name, blocks_of, firsts, has_text, inside, opening};
ghost use Rattle.ld_mpd.specs.Seen.{HasSeen};

use crate::block::Block;
use crate::seen::Seen;
use ld_line::{BlockLine, block_line, fields_law, split_field, split_line, unmarked};
use ld_names::{Bytes, Lines, Name, NameError, normal};
use std::alloc::{AllocError, Global};

/// The blocks of a file of this name (MPD Language Extension). A block's name is the normal form of
/// what stands behind FILE or !DATA, or the file's own name where that has none. Where no FILE line
/// stands, a text block by the own name begins before the first line. The first block of a kind and a
/// name stands, and at least one block is a text.
pub fn split(alloc: Global, bytes: &[u8], own: &Name) -> Result<Vec<Block>, AllocError>
    ensures ok { IfOk result (λ blocks. blocks.items ≡ blocks_of own.now bytes.now) }
    ensures text { IfOk result (λ blocks. has_text blocks.items ≡ true) }
{
    let mut found = Found::new(alloc);
    let mut rest = found.open(alloc, unmarked(bytes), own)?;
    while let Some((line, more)) = split_line(rest) {
        rest = found.take(alloc, line, more, own)?;
    }
    Ok(found.blocks)
}

/// The text of a file: the lines of its first text block, whatever the file's name.
pub fn text_of(alloc: Global, bytes: &[u8]) -> Result<Lines, AllocError>
    ensures ok { IfOk result (λ lines. IsText lines bytes.now) }
    ensures memory { OnErr result (IsText [] bytes.now → ⊥) }
{
    let (lines, _) = lines_inside(alloc, main_text(bytes))?;
    Ok(lines)
}

// The bytes that begin with the lines of the first text block.
fn main_text(bytes: &[u8]) -> &[u8]
    ensures { IsText (inside (lines_from result.now)) bytes.now }
{
    let text = unmarked(bytes);
    match behind_file(text) {
        Some(rest) => rest,
        None => text,
    }
}

// The blocks that were found, with their kinds and names.
#[derive(Drop)]
struct Found {
    blocks: Vec<Block>,
    seen: Seen,
}

impl Found {
    fn new(alloc: Global) -> Found
        ensures none { result.blocks.items ≡ [] }
        ensures seen { HasSeen result.seen [] }
    {
        Found {
            blocks: Vec::new(alloc),
            seen: Seen::new(alloc),
        }
    }

    // Adds the block that begins before the first line, where no FILE line stands. What of the text is
    // left.
    fn open<'a>(
        &mut self,
        alloc: Global,
        text: &'a [u8],
        own: &Name,
    ) -> Result<&'a [u8], AllocError>
        requires { HasSeen self.old.seen self.old.blocks.items }
        ensures blocks { OnOk result (self.new.blocks.items ≡ self.old.blocks.items
            ++ firsts self.old.blocks.items (opening own.now (lines_from text.now) (behind_file (lines_from text.now)))) }
        ensures seen { OnOk result (HasSeen self.new.seen self.new.blocks.items) }
        ensures left { IfOk result (λ rest. BeginsSame (lines_from rest.now) (lines_from text.now)) }
        ensures shorter { IfOk result (λ rest. length rest.now ≤ length text.now) }
    {
        let (lines, rest) = lines_inside(alloc, text)?;
        match behind_file(rest) {
            Some(_) => Ok(rest),
            None => {
                self.push(alloc, false, own.copy(alloc)?, lines)?;
                Ok(rest)
            }
        }
    }

    // Adds what a line begins, with the lines at the start of the text behind it. What of the text is
    // left.
    fn take<'a>(
        &mut self,
        alloc: Global,
        line: &[u8],
        text: &'a [u8],
        own: &Name,
    ) -> Result<&'a [u8], AllocError>
        requires { HasSeen self.old.seen self.old.blocks.items }
        ensures blocks { OnOk result (self.new.blocks.items ≡ self.old.blocks.items
            ++ firsts self.old.blocks.items (block_at own.now line.now (lines_from text.now) (block_line_of line.now))) }
        ensures seen { OnOk result (HasSeen self.new.seen self.new.blocks.items) }
        ensures left { IfOk result (λ rest. BeginsSame (lines_from rest.now) (lines_from text.now)) }
        ensures shorter { IfOk result (λ rest. length rest.now ≤ length text.now) }
    {
        match block_line(line) {
            BlockLine::File => self.add(alloc, false, name_behind(alloc, line, own)?, text),
            BlockLine::Data => self.add(alloc, true, name_behind(alloc, line, own)?, text),
            BlockLine::NoFile | BlockLine::Other => Ok(text),
        }
    }

    // Adds a block with the lines at the start of the text, unless one of its kind and name was found.
    // What of the text is left.
    fn add<'a>(
        &mut self,
        alloc: Global,
        is_data: bool,
        name: Name,
        text: &'a [u8],
    ) -> Result<&'a [u8], AllocError>
        requires { HasSeen self.old.seen self.old.blocks.items }
        ensures blocks { OnOk result (self.new.blocks.items ≡ self.old.blocks.items
            ++ firsts self.old.blocks.items (block is_data name (inside (lines_from text.now)) ∷ [])) }
        ensures seen { OnOk result (HasSeen self.new.seen self.new.blocks.items) }
        ensures left { IfOk result (λ rest. BeginsSame (lines_from rest.now) (lines_from text.now)) }
        ensures shorter { IfOk result (λ rest. length rest.now ≤ length text.now) }
    {
        let (lines, rest) = lines_inside(alloc, text)?;
        self.push(alloc, is_data, name, lines)?;
        Ok(rest)
    }

    // Adds a block unless one of its kind and name was found.
    fn push(
        &mut self,
        alloc: Global,
        is_data: bool,
        name: Name,
        lines: Lines,
    ) -> Result<(), AllocError>
        requires { HasSeen self.old.seen self.old.blocks.items }
        ensures blocks { OnOk result (self.new.blocks.items ≡ self.old.blocks.items
            ++ firsts self.old.blocks.items (block is_data name lines ∷ [])) }
        ensures seen { OnOk result (HasSeen self.new.seen self.new.blocks.items) }
    {
        if self.seen.insert_copy(alloc, is_data, &name)? {
            self.blocks.push(Block {
                name,
                lines,
                is_data,
            })?;
        }
        Ok(())
    }
}

// The normal form of what stands behind the second field, or the own name.
fn name_behind(alloc: Global, line: &[u8], own: &Name) -> Result<Name, AllocError>
    ensures { IfOk result (λ name. name ≡ block_name own.now line.now) }
{
    match stated_name(alloc, line)? {
        Some(name) => Ok(name),
        None => own.copy(alloc),
    }
}

// The normal form of what stands behind the second field, if that has one.
fn stated_name(alloc: Global, line: &[u8]) -> Result<Option<Name>, AllocError>
    ensures name { IfOk result (λ name. name ≡ result_ok (normal_of (after_fields 2 line.now))) }
    ensures memory { OnErr result (IsOk (normal_of (after_fields 2 line.now))) }
{
    match normal(alloc, behind_field(behind_field(line))) {
        Ok(name) => Ok(Some(name)),
        Err(NameError::Memory) => Err(AllocError),
        Err(NameError::Empty | NameError::TooLong | NameError::NotRelative | NameError::Control) =>
            { Ok(None) }
    }
}

fn behind_field(line: &[u8]) -> &[u8]
    ensures { result.now ≡ after_field line.now }
{
    fields_law();
    match split_field(line) {
        Some((_, rest)) => rest,
        None => b"".as_slice(),
    }
}

// The text behind its first FILE line.
fn behind_file(text: &[u8]) -> Option<&[u8]>
    ensures { MatchOption result (behind_file (lines_from text.now) ≡ None)
        (λ rest. behind_file (lines_from text.now) ≡ Some (lines_from rest.now)) }
{
    let mut rest = text;
    while let Some((line, more)) = split_line(rest) {
        if block_line(line) == BlockLine::File {
            return Some(more);
        }
        rest = more;
    }
    None
}

// The lines up to the next one that begins or ends a block, and the text from that line on.
fn lines_inside(alloc: Global, text: &[u8]) -> Result<(Lines, &[u8]), AllocError>
    ensures lines { IfOk result (λ cut. cut.0 ≡ inside (lines_from text.now)) }
    ensures left { IfOk result (λ cut. BeginsSame (lines_from cut.1.now) (lines_from text.now)) }
    ensures file { IfOk result (λ cut. behind_file (lines_from cut.1.now) ≡ behind_file (lines_from text.now)) }
    ensures shorter { IfOk result (λ cut. length cut.1.now ≤ length text.now) }
    ensures memory { OnErr result (inside (lines_from text.now) ≢ []) }
{
    let mut rest = text;
    let mut lines = Vec::new(alloc);
    while let Some((line, more)) = line_inside(rest) {
        push_line(alloc, line, &mut lines)?;
        rest = more;
    }
    Ok((Lines::from_vec(lines), rest))
}

#[inline]
fn push_line(alloc: Global, line: &[u8], into: &mut Vec<Bytes>) -> Result<(), AllocError>
    ensures { OnOk result (into.new.items ≡ into.old.items ++ line.now ∷ []) }
{
    let line = Bytes::from_slice(alloc, line)?;
    into.push(line)?;
    Ok(())
}

// The first line and the text behind it, unless that line begins or ends a block.
fn line_inside(text: &[u8]) -> Option<(&[u8], &[u8])>
    ensures lines { MatchOption result (inside (lines_from text.now) ≡ [])
        (λ cut. inside (lines_from text.now) ≡ cut.0.now ∷ inside (lines_from cut.1.now)) }
    ensures left { IfSome result (λ cut. BeginsSame (lines_from cut.1.now) (lines_from text.now)) }
    ensures file { IfSome result (λ cut. behind_file (lines_from cut.1.now) ≡ behind_file (lines_from text.now)) }
    ensures shorter { IfSome result (λ cut. length cut.1.now < length text.now) }
{
    let Some((line, more)) = split_line(text) else {
        return None;
    };
    if block_line(line) != BlockLine::Other {
        return None;
    }
    Some((line, more))
}
