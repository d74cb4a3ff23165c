// A script over a model: what it needs is read.
ghost use Rattle.std.specs.Prelude.{◌≡◌, ◌≢◌, ◌≤◌, Err, IfSome, None, length};
ghost use Rattle.ld_io.specs.Shelf.{Files, IsOnlyRead};
ghost use Rattle.ld_colour.specs.Table.{counting};
ghost use Rattle.ld_engine.specs.Limits.{bad_limit};
ghost use Rattle.ld_script.specs.Script.{commands_of};
ghost use Rattle.ld_words.specs.Shown.{options_shown};
ghost use Rattle.ld_cmd.specs.Output.{file_bytes, limits_of, replay_output, replayed};
ghost use Rattle.ld_cmd.specs.Replying.{OpensSession};

use crate::inputs::{read_input, read_table};
use crate::made::Stop;
use crate::make::own_name;
use crate::model::{limits_of, load_model, open_workspace};
use crate::session::{Session, Setting};
use ld_colour::Table;
use ld_io::Shelf;
use ld_names::Name;
use ld_script::read_script;
use ld_words::Options;
use std::alloc::Global;

pub(crate) fn open_replay<S: Shelf>(
    alloc: Global,
    file: &str,
    script: &str,
    options: &Options,
    shelf: &mut S,
) -> Result<Session, Stop>
    requires bounds { bad_limit (limits_of (options_shown options.now)) ≡ None }
    ensures told { IfSome (S.files shelf.old) (λ files. OpensSession (replay_output file.now script.now (options_shown options.now) files) files result) }
    ensures shelf { IsOnlyRead (S.files shelf.old) (S.files shelf.new) (S.faults shelf.old) (S.faults shelf.new) (result ≡ Err Stop.ReadFault) }
{
    let bytes = match read_input(alloc, file.as_bytes(), shelf) {
        Ok(bytes) => bytes,
        Err(stop) => return Err(stop),
    };
    let lines = match read_input(alloc, script.as_bytes(), shelf) {
        Ok(lines) => lines,
        Err(stop) => return Err(stop),
    };
    let table = match read_table(alloc, options.colours, shelf) {
        Ok(table) => table,
        Err(stop) => return Err(stop),
    };
    let own = own_name(alloc, file.as_bytes())?;
    open_session(
        alloc,
        options,
        &own,
        bytes.as_slice(),
        lines.as_slice(),
        table,
    )
}

// A model is loaded, and its script is read.
#[tactic(auto, unfolding(crate::specs::Output::replayed))]
fn open_session(
    alloc: Global,
    options: &Options,
    own: &Name,
    bytes: &[u8],
    lines: &[u8],
    table: Table,
) -> Result<Session, Stop>
    requires bounds { bad_limit (limits_of (options_shown options.now)) ≡ None }
    requires size { length bytes.now ≤ file_bytes }
    requires script_size { length lines.now ≤ file_bytes }
    ensures opens { (files : Files) → OpensSession (replayed (options_shown options.now) (counting table) (commands_of lines.now) files own.now bytes.now) files result }
    ensures no_fault { result ≢ Err Stop.ReadFault }
{
    let commands = read_script(alloc, lines)?;
    let mut workspace = open_workspace(alloc, options)?;
    match load_model(alloc, &mut workspace, own, bytes) {
        Ok(main) => Ok(Session {
            setting: Setting {
                limits: limits_of(options),
                table,
                main,
                colour: options.main,
            },
            workspace,
            commands,
        }),
        Err(stop) => Err(stop),
    }
}
