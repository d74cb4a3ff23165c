// A script is answered: each reply is put as soon as it is made.
ghost use Rattle.std.specs.Prelude.{◌≡◌, ◌≢◌, ◌≤◌, ◌∷◌, [], ℕ, List, Option, Err, IfErr, IfSome, OnOk, is_some};
ghost use Rattle.std.specs.List.{concat};
ghost use Rattle.ld_io.specs.Faults.{HasRisen};
ghost use Rattle.ld_io.specs.Shelf.{IsOnlyRead};
ghost use Rattle.ld_script.specs.declared.command.Command.{Command};
ghost use Rattle.ld_cmd.specs.Ending.{EndsAs, StandsInFront, Takes};
ghost use Rattle.ld_cmd.specs.Leaving.{Leaves};
ghost use Rattle.ld_cmd.specs.Playing.{played};
ghost use Rattle.ld_cmd.specs.Replying.{session_output, setting_shown};
ghost use Rattle.ld_cmd.specs.declared.status.Status.{Status};

use crate::made::Stop;
use crate::put::{put, put_last};
use crate::reply::reply;
use crate::session::{Session, Setting};
use crate::status::Status;
use ld_engine::Workspace;
use ld_io::{Shelf, Sink};
use ld_script::Command;
use std::alloc::Global;

pub(crate) fn play<S: Shelf, K: Sink>(
    alloc: Global,
    session: Session,
    shelf: &mut S,
    out: &mut K,
) -> Status
    ensures status { IfSome (S.files shelf.old) (λ files. EndsAs result (session_output session files).status) }
    ensures taken { IfSome (S.files shelf.old) (λ files. IfSome (K.taken out.old)
        (λ before. Takes result (session_output session files).pieces before (K.taken out.new))) }
    ensures in_front { IfSome (K.taken out.old) (λ before. StandsInFront before (K.taken out.new)) }
    // Every reply has bytes, so nothing is put only where there is no command.
    ensures unput { IfSome (S.files shelf.old) (λ files. concat (session_output session files).pieces ≡ [] → out.new ≡ out.old) }
    ensures no_usage { result ≢ Status.Usage }
    ensures shelf { IsOnlyRead (S.files shelf.old) (S.files shelf.new) (S.faults shelf.old) (S.faults shelf.new) (result ≡ Status.ReadFault) }
    ensures write_cause { result ≡ Status.WriteFault → HasRisen (K.faults out.old) (K.faults out.new) }
    ensures told_same { is_some (K.taken out.new) ≡ is_some (K.taken out.old) }
    ensures sink_faults { K.faults out.old ≤ K.faults out.new }
{
    let Session {
        setting,
        mut workspace,
        commands,
    } = session;
    answer_all(
        alloc,
        &setting,
        commands.as_slice(),
        &mut workspace,
        shelf,
        out,
    )
}

fn answer_all<S: Shelf, K: Sink>(
    alloc: Global,
    setting: &Setting,
    commands: &[Command],
    workspace: &mut Workspace,
    shelf: &mut S,
    out: &mut K,
) -> Status
    requires limits { workspace.old.limits ≡ setting.now.limits }
    ensures leaves { Leaves (S.files shelf.old) (λ files. played (setting_shown setting.now) files workspace.old.texts.known commands.now) result (K.taken out.old) (K.taken out.new) }
    ensures in_front { IfSome (K.taken out.old) (λ before. StandsInFront before (K.taken out.new)) }
    ensures unput { commands.now ≡ [] → out.new ≡ out.old }
    ensures no_usage { result ≢ Status.Usage }
    ensures shelf { IsOnlyRead (S.files shelf.old) (S.files shelf.new) (S.faults shelf.old) (S.faults shelf.new) (result ≡ Status.ReadFault) }
    ensures write_cause { result ≡ Status.WriteFault → HasRisen (K.faults out.old) (K.faults out.new) }
    ensures told_same { is_some (K.taken out.new) ≡ is_some (K.taken out.old) }
    ensures sink_faults { K.faults out.old ≤ K.faults out.new }
{
    let mut rest = commands;
    while let Some((command, more)) = rest.split_first() {
        match answer_command(alloc, setting, command, workspace, shelf, out) {
            Ok(()) => rest = more,
            Err(status) => return status,
        }
    }
    Status::Done
}

// Answers one command: what follows goes on from there, whatever it is.
fn answer_command<S: Shelf, K: Sink>(
    alloc: Global,
    setting: &Setting,
    command: &Command,
    workspace: &mut Workspace,
    shelf: &mut S,
    out: &mut K,
) -> Result<(), Status>
    requires limits { workspace.old.limits ≡ setting.now.limits }
    ensures limits { workspace.new.limits ≡ workspace.old.limits }
    ensures goes_on { OnOk result ((commands : List Command) (status : Status) (after : Option (List ℕ))
        → Leaves (S.files shelf.new) (λ files. played (setting_shown setting.now) files workspace.new.texts.known commands) status (K.taken out.new) after
        → Leaves (S.files shelf.old) (λ files. played (setting_shown setting.now) files workspace.old.texts.known (command.now ∷ commands)) status (K.taken out.old) after) }
    ensures stops { IfErr result (λ status. (commands : List Command)
        → Leaves (S.files shelf.old) (λ files. played (setting_shown setting.now) files workspace.old.texts.known (command.now ∷ commands)) status (K.taken out.old) (K.taken out.new)) }
    ensures in_front { IfSome (K.taken out.old) (λ before. StandsInFront before (K.taken out.new)) }
    ensures no_usage { result ≢ Err Status.Usage }
    ensures shelf { IsOnlyRead (S.files shelf.old) (S.files shelf.new) (S.faults shelf.old) (S.faults shelf.new) (result ≡ Err Status.ReadFault) }
    ensures write_cause { result ≡ Err Status.WriteFault → HasRisen (K.faults out.old) (K.faults out.new) }
    ensures told_same { is_some (K.taken out.new) ≡ is_some (K.taken out.old) }
    ensures sink_faults { K.faults out.old ≤ K.faults out.new }
{
    match reply(alloc, setting, command, workspace, shelf) {
        Ok(reply) => put(out, reply.as_slice()),
        Err(Stop::Decided(made)) => Err(put_last(out, made.text.as_slice(), made.status)),
        Err(Stop::ReadFault) => Err(Status::ReadFault),
        Err(Stop::Memory) => Err(Status::Memory),
    }
}
