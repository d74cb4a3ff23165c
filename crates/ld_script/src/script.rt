ghost use Rattle.std.specs.Prelude.{◌≡◌, ◌≢◌, ◌<◌, ◌^◌, ◌++◌, [], IfOk, OnErr, OnOk, length};
ghost use Rattle.ld_script.specs.Script.{command_or_bad, commands_at, commands_of, is_ignored};

use crate::command::Command;
use crate::line::read_command;
use ld_line::{split_line, unmarked};
use std::alloc::{AllocError, Global};

/// The commands of a script, line by line. Empty lines and lines that begin with `#` are left out; one
/// TAB stands between each two fields, and a line that says no command is `Bad`:
///
/// - `set` or `ins`, FOLDER, NAME, LINE and TEXT, which is the rest of the line and may be empty;
/// - `del`, FOLDER, NAME and LINE; `new` or `drop`, FOLDER and NAME;
/// - `move`, FOLDER and NAME, FOLDER and NAME;
/// - `faces`, `steps` or `parts` alone, or with FOLDER, NAME and COLOUR.
///
/// FOLDER is `model`, `parts` or `p`; NAME has a normal form; LINE is 1 to 10 decimal digits below
/// 2^32; COLOUR is a colour word (File Format 1.0.2, "Colours").
///
/// # Errors
///
/// Want of memory, which is told only where there is a command.
pub fn read_script(alloc: Global, bytes: &[u8]) -> Result<Vec<Command>, AllocError>
    requires { length bytes.now < 2 ^ 32 }
    ensures ok { IfOk result (λ commands. commands.items ≡ commands_of bytes.now) }
    ensures memory { OnErr result (commands_of bytes.now ≢ []) }
{
    let mut commands = Vec::new(alloc);
    let mut rest = unmarked(bytes);
    let mut number = 0u32;
    while let Some((line, more)) = split_line(rest) {
        number += 1;
        if let Err(error) = push_line(alloc, &mut commands, number, line) {
            return Err(error);
        }
        rest = more;
    }
    Ok(commands)
}

// Appends what the line with this number says.
fn push_line(
    alloc: Global,
    commands: &mut Vec<Command>,
    number: u32,
    line: &[u8],
) -> Result<(), AllocError>
    ensures ok { OnOk result (commands.new.items ≡ commands.old.items ++ commands_at number line.now) }
    ensures memory { OnErr result (commands_at number line.now ≢ []) }
{
    if is_ignored(line) {
        return Ok(());
    }
    let command = read_command(alloc, line)?;
    commands.push(command_or_bad(number, command))?;
    Ok(())
}

fn command_or_bad(number: u32, command: Option<Command>) -> Command
    ensures { result ≡ command_or_bad number command }
{
    match command {
        None => Command::Bad(number),
        Some(command) => command,
    }
}

fn is_ignored(line: &[u8]) -> bool
    ensures { result ≡ is_ignored line.now }
{
    match line.first() {
        None => true,
        Some(byte) => *byte == b'#',
    }
}
