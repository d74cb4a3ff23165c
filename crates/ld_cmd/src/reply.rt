// The reply to one command of a script.
ghost use Rattle.std.specs.Prelude.{◌≡◌, ◌++◌, ◌<◌, ◌^◌, ◌↔◌, Err, IfOk, IfSome, codes, decimal, length};
ghost use Rattle.ld_io.specs.Shelf.{IsOnlyRead};
ghost use Rattle.ld_colour.specs.Table.{counting};
ghost use Rattle.ld_cmd.specs.Playing.{Replied, root_colour, edit_step, query_reply, query_step, refusal_text, root_of, shown_by, replied_to};
ghost use Rattle.ld_cmd.specs.Querying.{answer_queried};
ghost use Rattle.ld_cmd.specs.Replying.{Replies, edit_given, setting_shown};
ghost use Rattle.ld_cmd.specs.Written.{shown_text};
ghost use Rattle.ld_names.specs.Standing.{Known};

use crate::answer::{Shown, print_answer};
use crate::lines::{about_file, about_limit};
use crate::made::Stop;
use crate::model::fault_line;
use crate::query::{ask, change};
use crate::session::Setting;
use itoa::Buffer;
use ld_colour::{Colour, Table, colour_of};
use ld_engine::{Answer, AnswerError, EditError, Workspace};
use ld_io::Shelf;
use ld_names::{Bytes, FileId, List};
use ld_script::{Command, Query, Root};
use ld_texts::{Edit, EditRefusal, Texts};
use std::alloc::{AllocError, Global};

pub(crate) fn reply<S: Shelf>(
    alloc: Global,
    setting: &Setting,
    command: &Command,
    workspace: &mut Workspace,
    shelf: &mut S,
) -> Result<Bytes, Stop>
    requires limits { workspace.old.limits ≡ setting.now.limits }
    ensures limits { workspace.new.limits ≡ workspace.old.limits }
    ensures told { IfSome (S.files shelf.old)
        (λ files. Replies (replied_to (setting_shown setting.now) files workspace.old.texts.known command.now) workspace.new.texts.known result) }
    ensures shelf { IsOnlyRead (S.files shelf.old) (S.files shelf.new) (S.faults shelf.old) (S.faults shelf.new) (result ≡ Err Stop.ReadFault) }
{
    // Read here, so that the limit on entries is seen to be below 2^32.
    let _most = setting.limits.entries;
    match command {
        Command::Edit(edit) => answer_edit(alloc, edit, workspace, shelf),
        Command::Ask(query, root) => {
            let (file, colour) = (root_of(setting, root), root_colour(setting, root));
            answer_query(
                alloc,
                shown(*query),
                file,
                colour_of(colour),
                &setting.table,
                workspace,
                shelf,
            )
        }
        Command::Bad(_) => Ok(List::from_slice(alloc, b"refused script\n")?),
    }
}

fn answer_edit<S: Shelf>(
    alloc: Global,
    edit: &Edit,
    workspace: &mut Workspace,
    shelf: &mut S,
) -> Result<Bytes, Stop>
    ensures limits { workspace.new.limits ≡ workspace.old.limits }
    ensures told { IfSome (S.files shelf.old)
        (λ files. Replies (edit_step workspace.old.limits files workspace.old.texts.known edit.now) workspace.new.texts.known result) }
    ensures shelf { IsOnlyRead (S.files shelf.old) (S.files shelf.new) (S.faults shelf.old) (S.faults shelf.new) (result ≡ Err Stop.ReadFault) }
{
    let edited = change(workspace, shelf, edit);
    edit_reply(alloc, edited)
}

fn edit_reply(alloc: Global, edited: Result<(), EditError>) -> Result<Bytes, Stop>
    ensures reply { (wanted : Replied) (known : Known) → IfSome (edit_given known edited) (λ given. given ≡ wanted) → Replies wanted known result }
    ensures fault { result ≡ Err Stop.ReadFault ↔ edited ≡ Err EditError.ReadFault }
{
    match edited {
        Ok(()) => Ok(List::from_slice(alloc, b"ok\n")?),
        Err(EditError::Refused(refusal)) => Ok(refusal_line(alloc, refusal)?),
        Err(EditError::TooBig(file)) => Err(about_file(alloc, &file)),
        Err(EditError::Full(over)) => Err(about_limit(alloc, over)),
        Err(EditError::ReadFault) => Err(Stop::ReadFault),
        Err(EditError::Memory) => Err(Stop::Memory),
    }
}

fn refusal_line(alloc: Global, refusal: EditRefusal) -> Result<Bytes, AllocError>
    ensures { IfOk result (λ line. line ≡ refusal_text refusal) }
{
    match refusal {
        EditRefusal::BadLine => List::from_slice(alloc, b"refused badline\n"),
        EditRefusal::NoFile => List::from_slice(alloc, b"refused nofile\n"),
        EditRefusal::FileThere => List::from_slice(alloc, b"refused filethere\n"),
        EditRefusal::NoLine(count) => no_line(alloc, count),
        EditRefusal::Full(_) => List::from_slice(alloc, b"refused full\n"),
    }
}

fn no_line(alloc: Global, count: u32) -> Result<Bytes, AllocError>
    ensures { IfOk result (λ line. line ≡ codes "refused noline " ++ decimal count ++ codes "\n") }
{
    let mut line = Vec::from_slice(alloc, b"refused noline ")?;
    line.extend_from_slice(Buffer::new().format(count).as_bytes())?;
    line.push(b'\n')?;
    Ok(List::from_vec(line))
}

fn answer_query<S: Shelf>(
    alloc: Global,
    what: Shown,
    root: &FileId,
    colour: Colour,
    table: &Table,
    workspace: &mut Workspace,
    shelf: &mut S,
) -> Result<Bytes, Stop>
    requires { workspace.old.limits.entries < 2 ^ 32 }
    ensures limits { workspace.new.limits ≡ workspace.old.limits }
    ensures told { IfSome (S.files shelf.old)
        (λ files. Replies (query_step workspace.old.limits files workspace.old.texts.known what (counting table.now) root.now colour) workspace.new.texts.known result) }
    ensures shelf { IsOnlyRead (S.files shelf.old) (S.files shelf.new) (S.faults shelf.old) (S.faults shelf.new) (result ≡ Err Stop.ReadFault) }
{
    let answer = ask(workspace, shelf, root, colour);
    answer_reply(alloc, what, workspace.texts(), table, answer)
}

fn answer_reply(
    alloc: Global,
    what: Shown,
    texts: &Texts,
    table: &Table,
    answer: Result<Answer, AnswerError>,
) -> Result<Bytes, Stop>
    requires { IfOk answer (λ answer. length answer.entries < 2 ^ 32) }
    ensures reply { (wanted : Replied) → IfSome (answer_queried answer) (λ given. query_reply what (counting table.now) texts.now.known given ≡ wanted) → Replies wanted texts.now.known result }
    ensures fault { result ≡ Err Stop.ReadFault ↔ answer ≡ Err AnswerError.ReadFault }
{
    match answer {
        Ok(answer) => Ok(shown_lines(alloc, what, texts, table, &answer)?),
        Err(AnswerError::Fault(fault)) => Ok(List::from_vec(fault_line(alloc, texts, &fault)?)),
        Err(AnswerError::TooBig(file)) => Err(about_file(alloc, &file)),
        Err(AnswerError::Full(over)) => Err(about_limit(alloc, over)),
        Err(AnswerError::NoRoot) => Ok(List::from_slice(alloc, b"refused nofile\n")?),
        Err(AnswerError::ReadFault) => Err(Stop::ReadFault),
        Err(AnswerError::Memory) => Err(Stop::Memory),
    }
}

fn shown_lines(
    alloc: Global,
    what: Shown,
    texts: &Texts,
    table: &Table,
    answer: &Answer,
) -> Result<Bytes, AllocError>
    requires { length answer.now.entries < 2 ^ 32 }
    ensures { IfOk result (λ lines. lines ≡ shown_text what (counting table.now) texts.now.known answer.now ++ codes "done\n") }
{
    let mut lines = print_answer(alloc, what, texts, table, answer)?;
    lines.extend_from_slice(b"done\n")?;
    Ok(List::from_vec(lines))
}

fn shown(query: Query) -> Shown
    ensures { result ≡ shown_by query }
{
    match query {
        Query::Faces => Shown::Faces,
        Query::Steps => Shown::Steps,
        Query::Parts => Shown::Parts,
    }
}

fn root_of<'a>(setting: &'a Setting, root: &'a Option<Root>) -> &'a FileId
    ensures { result.now ≡ root_of (setting_shown setting.now) root.now }
{
    match root {
        None => &setting.main,
        Some(root) => &root.file,
    }
}

fn root_colour(setting: &Setting, root: &Option<Root>) -> u32
    ensures { result ≡ root_colour (setting_shown setting.now) root.now }
{
    match root {
        None => setting.colour,
        Some(root) => root.colour,
    }
}
