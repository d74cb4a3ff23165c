//! Worked runs of the command, over files in memory.
ghost use Rattle.std.specs.Prelude.{◌≡◌, [], ◌∷◌, ◌++◌, Ok, Err, None, codes, map};
ghost use Rattle.std.specs.declared.env.VarError.TheVariants.{NotPresent, NotUnicode, OutOfMemory};
ghost use Rattle.ld_cmd.specs.Ending.{exit_code};
ghost use Rattle.ld_cmd.specs.Folders.{library_folder};
ghost use Rattle.ld_cmd.specs.Generator.{brick_lines, generated, summary_text};
ghost use Rattle.ld_cmd.specs.Output.{output, usage};
ghost use Rattle.ld_cmd.specs.Rows.{bricks_of_eleven, bricks_of_one, edited_model, edits_output, folder_named, parts_blocks};
ghost use Rattle.ld_cmd.specs.Written.{one_piece};
ghost use Rattle.ld_cmd.specs.declared.folders.Unusable.TheVariants.{Memory, NotText};
ghost use Rattle.ld_cmd.specs.declared.status.Status.TheVariants as status;

mod blocks;
mod commands;
mod edits;
mod faces;
mod findings;
mod inlined;
mod library;
mod limits;
mod ordinary;
mod outside;
mod printed;
mod requests;
mod scripts;
mod stepping;
mod threads;
mod words;

use crate::tests::commands::COMMANDS;
use crate::tests::faces::FACES;
use crate::tests::inlined::INLINED;
use crate::tests::ordinary::ORDINARY;
use crate::tests::outside::OUTSIDE;
use crate::tests::words::WORDS;
use crate::{Status, run};
use itoa::Buffer;
use ld_io::{MemShelf, MemSink, Place};
use ld_line::read_number;
use std::alloc::{AllocError, Global};

// A table is a text of cases. Each stands behind `@`: its name, the words (behind `!` the numbers of the fetch and of the
// put that are to fail, and how many bytes that put takes), each file behind `^` with its place and name, and behind `~`
// the number of the status, maybe with how many fetches and puts there are, and what is written.

// What stands before the first of these characters, and what stands behind it.
fn cut(text: &str, at: char) -> (&str, &str) {
    match text.split_once(at) {
        Some(parts) => parts,
        None => (text, ""),
    }
}

// What stands between these characters; an empty text has nothing.
fn pieces<'a>(alloc: Global, text: &'a str, at: char) -> Result<Vec<&'a str>, AllocError> {
    let mut pieces = Vec::new(alloc);
    if !text.is_empty() {
        for piece in text.split(at) {
            pieces.push(piece)?;
        }
    }
    Ok(pieces)
}

// The words of a line, which stand between TABs or else between spaces.
fn words_of(alloc: Global, line: &str) -> Result<Vec<String>, AllocError> {
    let between = if line.contains('\t') { '\t' } else { ' ' };
    let words = pieces(alloc, line, between)?;
    owned(alloc, words.as_slice())
}

fn owned(alloc: Global, words: &[&str]) -> Result<Vec<String>, AllocError> {
    let mut own = Vec::new(alloc);
    for word in words {
        own.push(String::from_str(alloc, word)?)?;
    }
    Ok(own)
}

fn place_of(text: &str) -> Place {
    match text {
        "work" => Place::Work,
        "parts" => Place::Parts,
        "p" => Place::P,
        _ => Place::Model,
    }
}

// A file by its place, its name and its lines.
fn add_file(shelf: &mut MemShelf, file: &str) -> Result<(), AllocError> {
    let (head, text) = cut(file, '\n');
    let (place, name) = cut(head, ' ');
    shelf.add(place_of(place), name.as_bytes(), text.as_bytes())
}

fn number(text: &str) -> u64 {
    u64::from(read_number(text.as_bytes()).unwrap_or(0))
}

// Makes the fetch and the put of these numbers fail.
fn set_faults(numbers: &str, shelf: &mut MemShelf, sink: &mut MemSink) -> Result<(), AllocError> {
    let (fetch, of_put) = cut(numbers, ' ');
    let (put, taken) = cut(of_put, ' ');
    shelf.fail(number(fetch))?;
    sink.fail(number(put), number(taken))
}

fn run_line(
    alloc: Global,
    line: &str,
    shelf: &mut MemShelf,
    sink: &mut MemSink,
) -> Result<Status, AllocError> {
    let words = words_of(alloc, line)?;
    Ok(run(alloc, words.as_slice(), shelf, sink))
}

fn add_files(alloc: Global, shelf: &mut MemShelf, files: &str) -> Result<(), AllocError> {
    for file in pieces(alloc, files, '^')?.as_slice() {
        add_file(shelf, file)?;
    }
    Ok(())
}

// Runs the words of a case, by what stands before the `~` in it.
fn run_given(
    alloc: Global,
    given: &str,
    shelf: &mut MemShelf,
    sink: &mut MemSink,
) -> Result<Status, AllocError> {
    let (heading, files) = cut(given, '^');
    add_files(alloc, shelf, files)?;
    let (_name, lines) = cut(heading, '\n');
    let (line, _) = cut(lines, '\n');
    let (words, numbers) = cut(line, '!');
    set_faults(numbers, shelf, sink)?;
    run_line(alloc, words, shelf, sink)
}

fn number_text(alloc: Global, status: Status) -> Result<String, AllocError> {
    format!(in alloc; "{}", status.number())
}

fn counts_text(
    alloc: Global,
    status: Status,
    fetches: u64,
    puts: u64,
) -> Result<String, AllocError> {
    format!(in alloc; "{} {fetches} {puts}", status.number())
}

fn is_ending(
    alloc: Global,
    ending: &str,
    status: Status,
    fetches: u64,
    puts: u64,
) -> Result<bool, AllocError> {
    let text = if ending.contains(' ') {
        counts_text(alloc, status, fetches, puts)?
    } else {
        number_text(alloc, status)?
    };
    Ok(ending == text.as_str())
}

// Whether a case comes to what it wants.
fn is_given(alloc: Global, case: &str) -> Result<bool, AllocError> {
    let (given, wanted) = cut(case, '~');
    let (ending, bytes) = cut(wanted, '\n');
    let mut shelf = MemShelf::new(alloc);
    let mut sink = MemSink::new(alloc);
    let status = run_given(alloc, given, &mut shelf, &mut sink)?;
    let is_ending = is_ending(alloc, ending, status, shelf.fetches(), sink.puts())?;
    Ok(is_ending && sink.bytes() == bytes.as_bytes())
}

// The first case that does not come to what it wants.
fn first_wrong<'a>(alloc: Global, cases: &[&'a str]) -> Result<&'a str, AllocError> {
    for case in cases {
        if !is_given(alloc, case)? {
            return Ok(case);
        }
    }
    Ok("")
}

fn wrong_case(alloc: Global, table: &str) -> Result<&str, AllocError> {
    let (_, cases) = cut(table, '@');
    let cases = pieces(alloc, cases, '@')?;
    first_wrong(alloc, cases.as_slice())
}

#[test]
fn answers_over_files_in_memory(rt: HostRuntime) -> Result<(), AllocError> {
    for table in [WORDS, FACES, ORDINARY, COMMANDS, INLINED, OUTSIDE] {
        let wrong = wrong_case(rt.alloc(), table)?;
        assert!(rt; wrong.is_empty(), "{wrong}");
    }
    Ok(())
}

// Whether the words over these files end with this status and this line.
fn comes_to(
    alloc: Global,
    words: &str,
    shelf: &mut MemShelf,
    status: Status,
    line: &str,
) -> Result<bool, AllocError> {
    let mut sink = MemSink::new(alloc);
    let got = run_line(alloc, words, shelf, &mut sink)?;
    Ok(got == status && sink.bytes() == line.as_bytes())
}

// Whether so many of a byte, as the model's file, have this status and this line.
fn ends_as(
    alloc: Global,
    byte: u8,
    count: usize,
    status: Status,
    line: &str,
) -> Result<bool, AllocError> {
    let file = vec![in alloc; byte; count]?;
    let mut shelf = MemShelf::new(alloc);
    shelf.add(Place::Work, b"m.ldr", file.as_slice())?;
    comes_to(alloc, "faces m.ldr", &mut shelf, status, line)
}

// Each empty line weighs 32: 8,388,608 of them weigh all that texts may.
#[test]
fn the_greatest_file(rt: HostRuntime) -> Result<(), AllocError> {
    let alloc = rt.alloc();
    assert!(rt; ends_as(alloc, b' ', 33_554_432, Status::Done, "")?);
    assert!(rt; ends_as(alloc, b' ', 33_554_433, Status::Limit, "toobig m.ldr\n")?);
    assert!(rt; ends_as(alloc, b'\n', 8_388_608, Status::Done, "")?);
    assert!(rt; ends_as(alloc, b'\n', 8_388_609, Status::Limit, "full weight 0\n")?);
    Ok(())
}

// A model of so many blocks, the first of which refers to `x.dat`.
fn blocks_of(alloc: Global, count: u32) -> Result<Vec<u8>, AllocError> {
    let mut text = Vec::from_slice(alloc, b"0 FILE m.ldr\n1 16 0 0 0 1 0 0 0 1 0 0 0 1 x.dat\n")?;
    for index in 1..count {
        append_block(index, &mut text)?;
    }
    Ok(text)
}

fn append_block(index: u32, text: &mut Vec<u8>) -> Result<(), AllocError> {
    text.extend_from_slice(b"0 FILE ")?;
    text.extend_from_slice(Buffer::new().format(index).as_bytes())?;
    text.extend_from_slice(b"\n")
}

const SCRIPTS: &str = "work query
faces^work drop
drop\tparts\tx.dat^work insert
ins\tmodel\tm.ldr\t1\t0 a comment";

// Whether a command over a model, with the library's file `x.dat`, ends with this status and this line.
fn is_ended(
    alloc: Global,
    words: &str,
    model: &[u8],
    part: &[u8],
    status: Status,
    line: &str,
) -> Result<bool, AllocError> {
    let mut shelf = MemShelf::new(alloc);
    add_files(alloc, &mut shelf, SCRIPTS)?;
    shelf.add(Place::Work, b"m.ldr", model)?;
    shelf.add(Place::Parts, b"x.dat", part)?;
    comes_to(alloc, words, &mut shelf, status, line)
}

// Whether a command, a query of a script and an edit of one all stop at a limit.
fn all_stop(alloc: Global, model: &[u8], part: &[u8], line: &str) -> Result<bool, AllocError> {
    let command = is_ended(alloc, "faces m.ldr", model, part, Status::Limit, line)?;
    let query = is_ended(
        alloc,
        "replay m.ldr query",
        model,
        part,
        Status::Limit,
        line,
    )?;
    let edit = is_ended(alloc, "replay m.ldr drop", model, part, Status::Limit, line)?;
    Ok(command && query && edit)
}

// Whether they do over a model of so many blocks, with so many of a byte as the library's file.
fn stops_at(
    alloc: Global,
    blocks: u32,
    byte: u8,
    count: usize,
    line: &str,
) -> Result<bool, AllocError> {
    let model = blocks_of(alloc, blocks)?;
    let part = vec![in alloc; byte; count]?;
    all_stop(alloc, model.as_slice(), part.as_slice(), line)
}

// A limit at which learning stops is told, and not as want of memory.
#[test]
fn limits_of_learning(rt: HostRuntime) -> Result<(), AllocError> {
    let alloc = rt.alloc();
    assert!(rt; stops_at(alloc, 1, b' ', 33_554_433, "toobig parts/x.dat\n")?);
    assert!(rt; stops_at(alloc, 1, b'\n', 8_388_607, "full weight 66\n")?);
    assert!(rt; stops_at(alloc, 65_535, b' ', 0, "full files 65535\n")?);
    Ok(())
}

fn loading_stops(alloc: Global) -> Result<bool, AllocError> {
    let more = blocks_of(alloc, 65_536)?;
    let line = "full files 65535\n";
    is_ended(
        alloc,
        "check m.ldr",
        more.as_slice(),
        b"",
        Status::Limit,
        line,
    )
}

fn edit_is_refused(alloc: Global) -> Result<bool, AllocError> {
    let full = vec![in alloc; b'\n'; 8_388_608]?;
    let line = "refused full\n";
    is_ended(
        alloc,
        "replay m.ldr insert",
        full.as_slice(),
        b"",
        Status::Done,
        line,
    )
}

// So are one of loading, and one of an edit.
#[test]
fn limits_of_texts(rt: HostRuntime) -> Result<(), AllocError> {
    assert!(rt; loading_stops(rt.alloc())?);
    assert!(rt; edit_is_refused(rt.alloc())?);
    Ok(())
}

// The definitions, by computing.
fn outputs_by_definition()
    ensures usage { output (codes "faces" ∷ []) (λ place name. None) ≡ usage }
    ensures absent { output (codes "faces" ∷ codes "gone.ldr" ∷ []) (λ place name. None) ≡ one_piece (codes "absent gone.ldr\n") status.Input }
    ensures edits { output (codes "replay" ∷ codes "m" ∷ codes "s" ∷ []) edited_model ≡ edits_output }
    ensures model_folders { map folder_named (codes "faces" ∷ codes "a/b" ∷ codes "faces m.ldr" ∷ codes "faces a\\m.ldr" ∷ codes "faces a/m.ldr" ∷ codes "faces a/b/m.ldr" ∷ codes "faces a/" ∷ codes "faces /m.ldr" ∷ codes "faces //m.ldr" ∷ codes "replay a/m.ldr b/s" ∷ [])
        ≡ codes "." ∷ codes "." ∷ codes "." ∷ codes "." ∷ codes "a" ∷ codes "a/b" ∷ codes "a" ∷ codes "/" ∷ codes "/" ∷ codes "a" ∷ [] }
    ensures library_folders { map library_folder (Ok (codes "lib") ∷ Ok [] ∷ Err NotPresent ∷ Err NotUnicode ∷ Err OutOfMemory ∷ [])
        ≡ Ok (codes "lib") ∷ Ok [] ∷ Ok (codes "ldraw") ∷ Err NotText ∷ Err Memory ∷ [] }
    ensures exit_codes { map exit_code (status.Done ∷ status.Faulted ∷ status.Usage ∷ status.Input ∷ status.ReadFault ∷ status.WriteFault ∷ status.Memory ∷ status.Limit ∷ [])
        ≡ 0 ∷ 1 ∷ 2 ∷ 3 ∷ 4 ∷ 5 ∷ 6 ∷ 7 ∷ [] }
    ensures one_brick { generated 1 ≡ bricks_of_one ++ parts_blocks }
    ensures eleven_bricks { generated 11 ≡ bricks_of_eleven ++ parts_blocks }
    ensures last_brick { brick_lines 99999 ≡ codes "1 15 1980 0 19980 1 0 0 0 1 0 0 0 1 brick.dat\n0 STEP\n" }
    ensures summary { summary_text 100 16 3 ≡ codes "entries 100\nparts 16\nsteps 3\n" }
{}
