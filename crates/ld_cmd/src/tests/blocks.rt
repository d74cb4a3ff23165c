//! Worked files of several blocks.
ghost use Rattle.std.specs.Prelude.{◌≡◌, [], ◌∷◌, ◌++◌, Err, Ok, codes, false, true};
ghost use Rattle.ld_mpd.specs.Blocks.{block, blocks_of, text_of};
ghost use Rattle.ld_mpd.specs.Joining.{join_of};
ghost use Rattle.ld_mpd.specs.declared.joining.JoinError.TheVariants.{BadBlock, NoText};

use ld_mpd::{Block, JoinError, join, split, text_of};
use ld_names::{Bytes, Lines, normal};
use std::alloc::{AllocError, Global};
use std::slice;

// Files, with `%` for a byte-order mark, `^` for CR LF and `~` for LF, and their blocks. The first is
// the worked example mpd.
const FILES: &str = "\
%0 outside^0 FILE My Car.ldr^2 24 0 0 0 1 0 0^0 NOFILE^3 bad^0 FILE A.ldr^0 FILE a.ldr^2 24 0 0 0 9 9 9 \
=> text my car.ldr|2 24 0 0 0 1 0 0;text a.ldr;\n\
\x20=> text own.ldr;\n\
% => text own.ldr;\n\
a~b^~c => text own.ldr|a|b||c;\n\
0 NOFILE~1~ => text own.ldr;\n\
a~0 !DATA x.png~b~0 NOFILE~c => text own.ldr|a;data x.png|b;\n\
0 !DATA x~b~0 FILE x~c~ => data x|b;text x|c;\n\
0 FILE x~a~0 !DATA X~b~0 FILE X~c~0 !DATA x~d => text x|a;data x|b;\n\
0 FILE~a~0 FILE C:\\x~b~0 FILE ../y~c => text own.ldr|a;\n\
0 !DATA~a~ => text own.ldr;data own.ldr|a;\n\
a~0 FILE x~b => text x|b;\n\
\t0  FILE \t S\\X.DAT \t^a\r^ => text s/x.dat|a\r;\n\
0 FILE x~~0 FILEx~0 // FILE y~1 FILE => text x||0 FILEx|0 // FILE y|1 FILE;\n\
0 FILE a~0 NOFILE~b~0 FILE a~c~0 FILE b~d => text a;text b|d;\n\
0 FILE a\u{1}b~1~0 FILE own.ldr~2 => text own.ldr|1;\n\
0 FILE nnnnnnnnnnnnnnnnnnnnnnnnnnnnnnnnnnnnnnnnnnnnnnnnnnnnnnnnnnnnnnnn\
nnnnnnnnnnnnnnnnnnnnnnnnnnnnnnnnnnnnnnnnnnnnnnnnnnnnnnnnnnnnnnnn\
nnnnnnnnnnnnnnnnnnnnnnnnnnnnnnnnnnnnnnnnnnnnnnnnnnnnnnnnnnnnnnnn\
nnnnnnnnnnnnnnnnnnnnnnnnnnnnnnnnnnnnnnnnnnnnnnnnnnnnnnnnnnnnnnnn~a => text own.ldr|a;\n\
0 FILE a~0 NOFILE x~0 NOFILE~1~0 FILE b~ => text a;text b;";

// Texts of files, each line behind a bar.
const TEXTS: &str = "0 !DATA x~b~0 FILE x~c~~d~0 FILE y~e => |c||d\n\
a~0 !DATA x~b => |a\n\
0 FILE x~0 NOFILE~a => ";

// Blocks of no line or one, and the file that they are joined to, or why they cannot be joined. The
// first four are the worked example mpd.
const JOINED: &str = "text my car.ldr|2 24 0 0 0 1 0 0;text a.ldr => \
0 FILE my car.ldr^2 24 0 0 0 1 0 0^0 FILE a.ldr^\n\
\x20=> NoText\n\
text my car.ldr|2 24 0 0 0 1 0 0;text a.ldr;text a.ldr => BadBlock(3)\n\
text x|0 NOFILE => BadBlock(1)\n\
text my car.ldr|2 24;data a|1 => 0 FILE my car.ldr^2 24^0 !DATA a^1^\n\
text my car.ldr|1;text a.ldr|2;text a.ldr|3 => BadBlock(3)\n\
text x|1;data x|0 FILE y;data x|2 => BadBlock(2)\n\
text x|1;data y|1;text z|a~b => BadBlock(3)\n\
data x|0 NOFILE;data x|1 => NoText";

fn bytes_of(byte: &u8) -> &[u8] {
    match *byte {
        b'%' => b"\xEF\xBB\xBF",
        b'^' => b"\r\n",
        b'~' => b"\n",
        _ => slice::from_ref(byte),
    }
}

fn file(alloc: Global, text: &str) -> Result<Vec<u8>, AllocError> {
    let mut bytes = Vec::new(alloc);
    for byte in text.as_bytes() {
        bytes.extend_from_slice(bytes_of(byte))?;
    }
    Ok(bytes)
}

fn show_lines(shown: &mut Vec<u8>, lines: &[Bytes]) -> Result<(), AllocError> {
    for line in lines {
        shown.push(b'|')?;
        shown.extend_from_slice(line.as_slice())?;
    }
    Ok(())
}

fn show_block(shown: &mut Vec<u8>, block: &Block) -> Result<(), AllocError> {
    let kind = if block.is_data {
        b"data ".as_slice()
    } else {
        b"text ".as_slice()
    };
    shown.extend_from_slice(kind)?;
    shown.extend_from_slice(block.name.bytes())?;
    show_lines(shown, block.lines.as_slice())?;
    shown.extend_from_slice(b";")
}

// A short text for blocks: kind and name, and each line behind a bar.
fn show_blocks(shown: &mut Vec<u8>, blocks: &[Block]) -> Result<(), AllocError> {
    for block in blocks {
        show_block(shown, block)?;
    }
    Ok(())
}

fn are_shown(alloc: Global, blocks: &[Block], wanted: &[u8]) -> bool {
    let mut shown = Vec::new(alloc);
    show_blocks(&mut shown, blocks).is_ok() && shown.as_slice() == wanted
}

fn blocks_of(alloc: Global, bytes: &[u8], own: &[u8]) -> Option<Vec<Block>> {
    let own = normal(alloc, own).ok()?;
    split(alloc, bytes, &own).ok()
}

fn join_few(alloc: Global, blocks: &[Block]) -> Result<Vec<u8>, JoinError> {
    if blocks.len() > 100 {
        return Err(JoinError::BadBlock(0));
    }
    join(alloc, blocks)
}

// Whether the joined blocks are cut into the same ones, by another name.
fn cuts_again(alloc: Global, blocks: &[Block], wanted: &[u8]) -> bool {
    let Ok(joined) = join_few(alloc, blocks) else {
        return false;
    };
    match blocks_of(alloc, joined.as_slice(), b"x") {
        Some(again) => are_shown(alloc, again.as_slice(), wanted),
        None => false,
    }
}

fn cuts(alloc: Global, bytes: &[u8], wanted: &[u8]) -> bool {
    let Some(blocks) = blocks_of(alloc, bytes, b"Own.ldr") else {
        return false;
    };
    are_shown(alloc, blocks.as_slice(), wanted) && cuts_again(alloc, blocks.as_slice(), wanted)
}

fn show_text(shown: &mut Vec<u8>, bytes: &[u8]) -> Result<(), AllocError> {
    let lines = text_of(*shown.allocator(), bytes)?;
    show_lines(shown, lines.as_slice())
}

fn has_text(alloc: Global, bytes: &[u8], wanted: &[u8]) -> bool {
    let mut shown = Vec::new(alloc);
    show_text(&mut shown, bytes).is_ok() && shown.as_slice() == wanted
}

fn one_line(alloc: Global, line: &str) -> Option<Lines> {
    let line = file(alloc, line).ok()?;
    let mut lines = Lines::new(alloc);
    lines.push(Bytes::from_vec(line)).ok()?;
    Some(lines)
}

fn block_of(alloc: Global, head: &str, lines: Lines) -> Option<Block> {
    let (kind, name) = head.split_once(' ')?;
    let name = normal(alloc, name.as_bytes()).ok()?;
    Some(Block {
        name,
        lines,
        is_data: kind == "data",
    })
}

// A block of one line, as `text x|0 NOFILE`, or of none, as `text x`.
fn one_block(alloc: Global, part: &str) -> Option<Block> {
    match part.split_once('|') {
        Some((head, line)) => block_of(alloc, head, one_line(alloc, line)?),
        None => block_of(alloc, part, Lines::new(alloc)),
    }
}

fn push_block(alloc: Global, part: &str, into: &mut Vec<Block>) -> Option<()> {
    let block = one_block(alloc, part)?;
    into.push(block).ok()
}

fn few_blocks(alloc: Global, parts: &str) -> Option<Vec<Block>> {
    let mut blocks = Vec::new(alloc);
    for part in parts.split_terminator(';') {
        push_block(alloc, part, &mut blocks)?;
    }
    Some(blocks)
}

fn is_told(alloc: Global, error: JoinError, wanted: &str) -> bool {
    match format!(in alloc; "{error:?}") {
        Ok(told) => told.as_str() == wanted,
        Err(_) => false,
    }
}

fn joins(alloc: Global, parts: &str, wanted: &str) -> bool {
    let Some(blocks) = few_blocks(alloc, parts) else {
        return false;
    };
    match (join_few(alloc, blocks.as_slice()), file(alloc, wanted)) {
        (Ok(joined), Ok(wanted)) => joined.as_slice() == wanted.as_slice(),
        (Err(error), _) => is_told(alloc, error, wanted),
        _ => false,
    }
}

fn file_row_holds(alloc: Global, row: &str) -> bool {
    let Some((text, wanted)) = row.split_once(" => ") else {
        return false;
    };
    match file(alloc, text) {
        Ok(bytes) => cuts(alloc, bytes.as_slice(), wanted.as_bytes()),
        Err(_) => false,
    }
}

fn text_row_holds(alloc: Global, row: &str) -> bool {
    let Some((text, wanted)) = row.split_once(" => ") else {
        return false;
    };
    match file(alloc, text) {
        Ok(bytes) => has_text(alloc, bytes.as_slice(), wanted.as_bytes()),
        Err(_) => false,
    }
}

fn join_row_holds(alloc: Global, row: &str) -> bool {
    match row.split_once(" => ") {
        Some((parts, wanted)) => joins(alloc, parts, wanted),
        None => false,
    }
}

#[test]
fn files_cut_and_joined(rt: HostRuntime) {
    let alloc = rt.alloc();
    for row in FILES.lines() {
        assert!(rt; file_row_holds(alloc, row), "{row}");
    }
    for row in TEXTS.lines() {
        assert!(rt; text_row_holds(alloc, row), "{row}");
    }
    for row in JOINED.lines() {
        assert!(rt; join_row_holds(alloc, row), "{row}");
    }
}

// The definitions, by computing.
fn blocks_by_definition()
    ensures outside { blocks_of (codes "own") (codes "a" ++ 10 ∷ codes "0 FILE X" ++ 10 ∷ codes "b" ++ 10 ∷ codes "0 FILE x" ++ 10 ∷ codes "c") ≡ block false (codes "x") (codes "b" ∷ []) ∷ [] }
    ensures no_file { blocks_of (codes "own") (codes "a" ++ 10 ∷ codes "0 !DATA" ++ 10 ∷ codes "b") ≡ block false (codes "own") (codes "a" ∷ []) ∷ block true (codes "own") (codes "b" ∷ []) ∷ [] }
    ensures text { text_of (codes "own") (codes "0 !DATA x" ++ 10 ∷ codes "b" ++ 10 ∷ codes "0 FILE x" ++ 10 ∷ codes "c") ≡ codes "c" ∷ [] }
    ensures joined { join_of (block false (codes "my car.ldr") (codes "2 24 0 0 0 1 0 0" ∷ []) ∷ block false (codes "a.ldr") [] ∷ []) ≡ Ok (codes "0 FILE my car.ldr" ++ 13 ∷ 10 ∷ codes "2 24 0 0 0 1 0 0" ++ 13 ∷ 10 ∷ codes "0 FILE a.ldr" ++ 13 ∷ 10 ∷ []) }
    ensures later { join_of (block false (codes "my car.ldr") (codes "2 24 0 0 0 1 0 0" ∷ []) ∷ block false (codes "a.ldr") [] ∷ block false (codes "a.ldr") [] ∷ []) ≡ Err (BadBlock 3) }
    ensures no_text { join_of [] ≡ Err NoText }
    ensures block_line { join_of (block false (codes "x") (codes "0 NOFILE" ∷ []) ∷ []) ≡ Err (BadBlock 1) }
{}
