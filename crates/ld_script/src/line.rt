// One line of a script.
ghost use Rattle.std.specs.Prelude.{◌≡◌, ◌≢◌, IfOk, None, OnErr, false, option_and_then, option_map, if◌then◌else◌};
ghost use Rattle.std.specs.List.{list_any};
ghost use Rattle.ld_line.specs.Digits.{decimal_number};
ghost use Rattle.ld_script.specs.Fields.{is_tab, tabbed};
ghost use Rattle.ld_script.specs.Script.{command_of, file_by, file_command, folder_by, main_query, named_file, number_command, query_by, text_command};

use crate::command::{Command, Query, Root};
use crate::fields::{has_tab, split_tab};
use ld_line::{read_colour, read_number};
use ld_names::{FileId, Folder, List, NameError, normal};
use ld_texts::Edit;
use std::alloc::{AllocError, Global};

// The command that a line says; `None` where it says none.
#[tactic(auto, unfolding(crate::specs::Script::command_of))]
pub(crate) fn read_command(alloc: Global, line: &[u8]) -> Result<Option<Command>, AllocError>
    ensures command { IfOk result (λ command. command ≡ command_of line.now) }
    ensures memory { OnErr result (named_file (tabbed line.now) ≢ None) }
{
    let Some((word, rest)) = split_tab(line) else {
        return Ok(read_main_query(line));
    };
    let Some((folder, rest)) = split_tab(rest) else {
        return Ok(None);
    };
    let Some((name, rest)) = split_tab(rest) else {
        return read_file_command(alloc, word, folder, rest);
    };
    let Some((field, text)) = split_tab(rest) else {
        return read_number_command(alloc, word, folder, name, rest);
    };
    read_text_command(alloc, word, folder, name, field, text)
}

fn read_main_query(word: &[u8]) -> Option<Command>
    ensures { result ≡ main_query word.now }
{
    let query = read_query(word)?;
    Some(Command::Ask(query, None))
}

fn read_file_command(
    alloc: Global,
    word: &[u8],
    folder: &[u8],
    name: &[u8],
) -> Result<Option<Command>, AllocError>
    ensures command { IfOk result (λ command. command ≡ option_and_then (file_command word.now) (file_by folder.now name.now)) }
    ensures memory { OnErr result (file_by folder.now name.now ≢ None) }
{
    let Some(file) = read_file(alloc, folder, name)? else {
        return Ok(None);
    };
    Ok(file_command(word, file))
}

fn file_command(word: &[u8], file: FileId) -> Option<Command>
    ensures { result ≡ file_command word.now file }
{
    if word == b"new".as_slice() {
        Some(Command::Edit(Edit::New { file }))
    } else if word == b"drop".as_slice() {
        Some(Command::Edit(Edit::Drop { file }))
    } else {
        None
    }
}

fn read_number_command(
    alloc: Global,
    word: &[u8],
    folder: &[u8],
    name: &[u8],
    number: &[u8],
) -> Result<Option<Command>, AllocError>
    ensures command { IfOk result (λ command. command ≡ option_and_then (λ file. number_command word.now file number.now) (file_by folder.now name.now)) }
    ensures memory { OnErr result (file_by folder.now name.now ≢ None) }
{
    let Some(file) = read_file(alloc, folder, name)? else {
        return Ok(None);
    };
    Ok(number_command(word, file, number))
}

fn number_command(word: &[u8], file: FileId, number: &[u8]) -> Option<Command>
    ensures { result ≡ number_command word.now file number.now }
{
    if word == b"del".as_slice() {
        let line = read_number(number)?;
        return Some(Command::Edit(Edit::Delete { file, line }));
    }
    let query = read_query(word)?;
    let colour = read_colour(number)?;
    Some(Command::Ask(query, Some(Root { file, colour })))
}

fn read_text_command(
    alloc: Global,
    word: &[u8],
    folder: &[u8],
    name: &[u8],
    field: &[u8],
    text: &[u8],
) -> Result<Option<Command>, AllocError>
    ensures command { IfOk result (λ command. command ≡ option_and_then (λ file. text_command word.now file field.now text.now) (file_by folder.now name.now)) }
    ensures memory { OnErr result (file_by folder.now name.now ≢ None) }
{
    let Some(file) = read_file(alloc, folder, name)? else {
        return Ok(None);
    };
    text_command(alloc, word, file, field, text)
}

#[inline]
fn text_command(
    alloc: Global,
    word: &[u8],
    file: FileId,
    field: &[u8],
    text: &[u8],
) -> Result<Option<Command>, AllocError>
    ensures command { IfOk result (λ command. command ≡ text_command word.now file field.now text.now) }
    ensures memory { OnErr result (text_command word.now file field.now text.now ≢ None) }
{
    if word == b"set".as_slice() {
        read_set(alloc, file, field, text)
    } else if word == b"ins".as_slice() {
        read_insert(alloc, file, field, text)
    } else if word == b"move".as_slice() {
        read_move(alloc, file, field, text)
    } else {
        Ok(None)
    }
}

fn read_set(
    alloc: Global,
    file: FileId,
    line: &[u8],
    text: &[u8],
) -> Result<Option<Command>, AllocError>
    ensures command { IfOk result (λ command. command ≡ option_map (λ line. Command.Edit (Edit.Set file line text.now)) (decimal_number line.now)) }
    ensures memory { OnErr result (decimal_number line.now ≢ None) }
{
    let Some(line) = read_number(line) else {
        return Ok(None);
    };
    let text = List::from_slice(alloc, text)?;
    Ok(Some(Command::Edit(Edit::Set { file, line, text })))
}

fn read_insert(
    alloc: Global,
    file: FileId,
    line: &[u8],
    text: &[u8],
) -> Result<Option<Command>, AllocError>
    ensures command { IfOk result (λ command. command ≡ option_map (λ line. Command.Edit (Edit.Insert file line text.now)) (decimal_number line.now)) }
    ensures memory { OnErr result (decimal_number line.now ≢ None) }
{
    let Some(line) = read_number(line) else {
        return Ok(None);
    };
    let text = List::from_slice(alloc, text)?;
    Ok(Some(Command::Edit(Edit::Insert { file, line, text })))
}

// A `move` to a file, whose name has no TAB.
fn read_move(
    alloc: Global,
    from: FileId,
    folder: &[u8],
    name: &[u8],
) -> Result<Option<Command>, AllocError>
    ensures command { IfOk result (λ command. command ≡ (if list_any is_tab name.now then None else option_map (λ to. Command.Edit (Edit.Move from to)) (file_by folder.now name.now))) }
    ensures memory { OnErr result ((list_any is_tab name.now ≡ false) × (file_by folder.now name.now ≢ None)) }
{
    if has_tab(name) {
        return Ok(None);
    }
    let Some(to) = read_file(alloc, folder, name)? else {
        return Ok(None);
    };
    Ok(Some(Command::Edit(Edit::Move { from, to })))
}

// A file by the word of its folder and by its name; `None` where the word is another, or the name has
// no normal form.
fn read_file(alloc: Global, folder: &[u8], name: &[u8]) -> Result<Option<FileId>, AllocError>
    ensures file { IfOk result (λ file. file ≡ file_by folder.now name.now) }
    ensures memory { OnErr result (file_by folder.now name.now ≢ None) }
{
    let Some(folder) = read_folder(folder) else {
        return Ok(None);
    };
    match normal(alloc, name) {
        Ok(name) => Ok(Some(FileId { folder, name })),
        Err(NameError::Memory) => Err(AllocError),
        Err(_) => Ok(None),
    }
}

fn read_folder(word: &[u8]) -> Option<Folder>
    ensures { result ≡ folder_by word.now }
{
    if word == b"model".as_slice() {
        Some(Folder::Model(1))
    } else if word == b"parts".as_slice() {
        Some(Folder::Parts)
    } else if word == b"p".as_slice() {
        Some(Folder::P)
    } else {
        None
    }
}

fn read_query(word: &[u8]) -> Option<Query>
    ensures { result ≡ query_by word.now }
{
    if word == b"faces".as_slice() {
        Some(Query::Faces)
    } else if word == b"steps".as_slice() {
        Some(Query::Steps)
    } else if word == b"parts".as_slice() {
        Some(Query::Parts)
    } else {
        None
    }
}
