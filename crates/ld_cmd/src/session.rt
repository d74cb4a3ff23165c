// What a run is to do once its files are read.
ghost use Rattle.std.specs.Prelude.{◌≡◌};

use crate::made::Made;
use ld_colour::Table;
use ld_engine::{Limits, Workspace};
use ld_names::FileId;
use ld_script::Command;

// What stays the same while a script is answered.
#[derive(Drop)]
pub(crate) struct Setting {
    pub limits: Limits,
    pub table: Table,
    pub main: FileId,
    // The number of the main model's colour.
    pub colour: u32,
}

// A script, with the texts over which it is answered.
#[derive(Drop)]
pub(crate) struct Session {
    pub setting: Setting,
    pub workspace: Workspace,
    pub commands: Vec<Command>,
    ghost limited: { workspace.limits ≡ setting.limits },
}

#[derive(Drop)]
pub(crate) enum Work {
    // To write this.
    Write(Made),
    // To answer this script.
    Play(Session),
}
