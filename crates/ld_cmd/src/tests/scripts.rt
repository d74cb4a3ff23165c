//! Worked scripts.
use ld_names::FileId;
use ld_script::{Command, Query, Root, read_script};
use ld_texts::Edit;
use std::alloc::{AllocError, Global};

// A script and its commands. `|` stands for a TAB, `~` for a line feed and `^` for a carriage return;
// a text stands between `<` and `>`.
const SCRIPTS: &str = "set|model|m.ldr|1|0 x => Set Model(1) m.ldr 1 <0 x>\n\
set|model|m.ldr|1| => Set Model(1) m.ldr 1 <>\n\
set|model|m.ldr|1|a|b|| => Set Model(1) m.ldr 1 <a|b||>\n\
set|model|m.ldr|1||x => Set Model(1) m.ldr 1 <|x>\n\
set|model|m.ldr|1 => Bad 1\n\
set|model|m.ldr|0|x => Set Model(1) m.ldr 0 <x>\n\
set|model|m.ldr|0000000001|x => Set Model(1) m.ldr 1 <x>\n\
set|model|m.ldr|00000000001|x => Bad 1\n\
set|model|m.ldr|4294967295|x => Set Model(1) m.ldr 4294967295 <x>\n\
set|model|m.ldr|4294967296|x => Bad 1\n\
set|model|m.ldr|+1|x => Bad 1\n\
set|model|m.ldr|1.0|x => Bad 1\n\
set|model|m.ldr||x => Bad 1\n\
set|model|m.ldr| 1|x => Bad 1\n\
set|model||1|x => Bad 1\n\
set|Model|m.ldr|1|x => Bad 1\n\
set|lib|m.ldr|1|x => Bad 1\n\
set|model1|m.ldr|1|x => Bad 1\n\
set|model2|m.ldr|1|x => Bad 1\n\
set||m.ldr|1|x => Bad 1\n\
set|parts| S\\3001S01.DAT |7|x => Set Parts s/3001s01.dat 7 <x>\n\
set|p|4-4 disc.dat|7|x => Set P 4-4 disc.dat 7 <x>\n\
set|p|../x.dat|7|x => Bad 1\n\
set|p|c:x.dat|7|x => Bad 1\n\
\x20set|model|m.ldr|1|x => Bad 1\n\
SET|model|m.ldr|1|x => Bad 1\n\
set model m.ldr 1 x => Bad 1\n\
ins|model|m.ldr|2|0 x => Insert Model(1) m.ldr 2 <0 x>\n\
ins|model|m.ldr|2| => Insert Model(1) m.ldr 2 <>\n\
ins|model|m.ldr|2 => Bad 1\n\
ins|model|m.ldr|x|0 x => Bad 1\n\
del|model|m.ldr|3 => Delete Model(1) m.ldr 3\n\
del|model|m.ldr|3| => Bad 1\n\
del|model|m.ldr|x => Bad 1\n\
del|model|m.ldr => Bad 1\n\
new|model|a b.ldr => New Model(1) a b.ldr\n\
new|model|a.ldr| => Bad 1\n\
new|model|nnnnnnnnnnnnnnnnnnnnnnnnnnnnnnnnnnnnnnnnnnnnnnnnnnnnnnnnnnnnnnnn\
nnnnnnnnnnnnnnnnnnnnnnnnnnnnnnnnnnnnnnnnnnnnnnnnnnnnnnnnnnnnnnnn\
nnnnnnnnnnnnnnnnnnnnnnnnnnnnnnnnnnnnnnnnnnnnnnnnnnnnnnnnnnnnnnnn\
nnnnnnnnnnnnnnnnnnnnnnnnnnnnnnnnnnnnnnnnnnnnnnnnnnnnnnnnnnnnnnnn => Bad 1\n\
new|model|a\u{1}b => Bad 1\n\
new|model => Bad 1\n\
new => Bad 1\n\
drop|p|A.DAT => Drop P a.dat\n\
drop|p||A.DAT => Bad 1\n\
move|model|a.ldr|parts|B.dat => Move Model(1) a.ldr Parts b.dat\n\
move|model|a.ldr|parts|B.dat| => Bad 1\n\
move|model|a.ldr|parts||B.dat => Bad 1\n\
move|model|a.ldr|parts => Bad 1\n\
move|model|a.ldr|x|b.dat => Bad 1\n\
move|model|a.ldr|model| => Bad 1\n\
faces => Faces\n\
steps => Steps\n\
parts => Parts\n\
faces| => Bad 1\n\
faces|model|m.ldr|16 => Faces Model(1) m.ldr 16\n\
steps|parts|x.dat|0x2FF0000 => Steps Parts x.dat 50266112\n\
parts|model|m.ldr|red => Bad 1\n\
faces|model|m.ldr => Bad 1\n\
faces|model|m.ldr|16| => Bad 1\n\
faces|model|m.ldr|16|x => Bad 1\n\
kept => Bad 1\n\
jump => Bad 1\n\
|faces => Bad 1\n\
\x20=>\x20\n\
# =>\x20\n\
#set|model|m.ldr|1|x =>\x20\n\
\x20# => Bad 1\n\
~~jump => Bad 3\n\
faces~ => Faces\n\
faces^~#x~~steps^ => Faces, Steps\n\
^ =>\x20\n\
faces^^ => Bad 1\n\
set|model|m.ldr|1|x^~ => Set Model(1) m.ldr 1 <x>\n\
set|model|m.ldr|1|x^y => Set Model(1) m.ldr 1 <x^y>\n\
faces~jump~steps~drop => Faces, Bad 2, Steps, Bad 4";

fn script_byte(byte: u8) -> u8 {
    match byte {
        b'|' => b'\t',
        b'~' => b'\n',
        b'^' => b'\r',
        _ => byte,
    }
}

fn script_of(alloc: Global, text: &str) -> Result<Vec<u8>, AllocError> {
    let mut bytes = Vec::new(alloc);
    for byte in text.as_bytes() {
        bytes.push(script_byte(*byte))?;
    }
    Ok(bytes)
}

fn shown_byte(byte: u8) -> u8 {
    match byte {
        b'\t' => b'|',
        b'\r' => b'^',
        _ => byte,
    }
}

fn text_shown(alloc: Global, bytes: &[u8]) -> Result<String, AllocError> {
    let mut shown = Vec::new(alloc);
    for byte in bytes {
        shown.push(shown_byte(*byte))?;
    }
    String::from_utf8_lossy(alloc, shown.as_slice())
}

fn file_shown(alloc: Global, file: &FileId) -> Result<String, AllocError> {
    let name = text_shown(alloc, file.name.bytes())?;
    format!(in alloc; "{:?} {name}", file.folder)
}

fn named_shown(alloc: Global, what: &str, file: &FileId) -> Result<String, AllocError> {
    let file = file_shown(alloc, file)?;
    format!(in alloc; "{what} {file}")
}

fn line_shown(alloc: Global, what: &str, file: &FileId, line: u32) -> Result<String, AllocError> {
    let file = file_shown(alloc, file)?;
    format!(in alloc; "{what} {file} {line}")
}

fn text_line_shown(
    alloc: Global,
    what: &str,
    file: &FileId,
    line: u32,
    text: &[u8],
) -> Result<String, AllocError> {
    let line = line_shown(alloc, what, file, line)?;
    let text = text_shown(alloc, text)?;
    format!(in alloc; "{line} <{text}>")
}

fn move_shown(alloc: Global, from: &FileId, to: &FileId) -> Result<String, AllocError> {
    let from = file_shown(alloc, from)?;
    let to = file_shown(alloc, to)?;
    format!(in alloc; "Move {from} {to}")
}

fn edit_shown(alloc: Global, edit: &Edit) -> Result<String, AllocError> {
    match edit {
        Edit::Set { file, line, text } => {
            text_line_shown(alloc, "Set", file, *line, text.as_slice())
        }
        Edit::Insert { file, line, text } => {
            text_line_shown(alloc, "Insert", file, *line, text.as_slice())
        }
        Edit::Delete { file, line } => line_shown(alloc, "Delete", file, *line),
        Edit::New { file } => named_shown(alloc, "New", file),
        // No word of a script makes one.
        Edit::Restore { file, .. } => named_shown(alloc, "Restore", file),
        Edit::Drop { file } => named_shown(alloc, "Drop", file),
        Edit::Move { from, to } => move_shown(alloc, from, to),
    }
}

fn root_shown(alloc: Global, query: Query, root: &Root) -> Result<String, AllocError> {
    let file = file_shown(alloc, &root.file)?;
    format!(in alloc; "{query:?} {file} {}", root.colour)
}

fn query_shown(alloc: Global, query: Query, root: &Option<Root>) -> Result<String, AllocError> {
    match root {
        None => format!(in alloc; "{query:?}"),
        Some(root) => root_shown(alloc, query, root),
    }
}

fn command_shown(alloc: Global, command: &Command) -> Result<String, AllocError> {
    match command {
        Command::Edit(edit) => edit_shown(alloc, edit),
        Command::Ask(query, root) => query_shown(alloc, *query, root),
        Command::Bad(line) => format!(in alloc; "Bad {line}"),
    }
}

fn push_shown(alloc: Global, command: &Command, into: &mut String) -> Result<(), AllocError> {
    let before = if into.is_empty() { "" } else { ", " };
    let command = command_shown(alloc, command)?;
    into.push_str(before)?;
    into.push_str(command.as_str())
}

fn commands_shown(alloc: Global, commands: &[Command]) -> Result<String, AllocError> {
    let mut shown = String::new(alloc);
    for command in commands {
        push_shown(alloc, command, &mut shown)?;
    }
    Ok(shown)
}

fn script_shown(alloc: Global, text: &str) -> Result<String, AllocError> {
    let script = script_of(alloc, text)?;
    if script.len() >= 1000 {
        return String::from_str(alloc, "too long");
    }
    let commands = read_script(alloc, script.as_slice())?;
    commands_shown(alloc, commands.as_slice())
}

fn script_row_holds(alloc: Global, row: &str) -> bool {
    let Some((script, wanted)) = row.split_once(" => ") else {
        return false;
    };
    match script_shown(alloc, script) {
        Ok(shown) => shown.as_str() == wanted,
        Err(_) => false,
    }
}

#[test]
fn scripts(rt: HostRuntime) {
    let alloc = rt.alloc();
    for row in SCRIPTS.lines() {
        assert!(rt; script_row_holds(alloc, row), "{row}");
    }
}
