// Questions to the workspace, over the files of a shelf.
ghost use Rattle.std.specs.Prelude.{◌≡◌, ◌≤◌, Err, IfOk, IfSome, None, Some, length};
ghost use Rattle.ld_io.specs.Shelf.{IsOnlyRead};
ghost use Rattle.ld_engine.specs.declared.asking.AnswerError.TheVariants.{NoRoot, ReadFault};
ghost use Rattle.ld_names.specs.Standing.{known_map};
ghost use Rattle.ld_engine.specs.Learning.{LearnsFor};
ghost use Rattle.ld_steps.specs.Laws.{AreSteps};
ghost use Rattle.ld_cmd.specs.Playing.{edit_step};
ghost use Rattle.ld_cmd.specs.Querying.{Queries, answer_queried};
ghost use Rattle.ld_cmd.specs.Replying.{edit_given};

use ld_colour::Colour;
use ld_engine::{Answer, AnswerError, EditError, Workspace, root_law, steps_law};
use ld_entry::tint_law;
use ld_io::Shelf;
use ld_names::FileId;
use ld_texts::Edit;

// What the texts as they stand answer to a root in a colour.
pub(crate) fn ask<S: Shelf>(
    workspace: &mut Workspace,
    shelf: &mut S,
    root: &FileId,
    colour: Colour,
) -> Result<Answer, AnswerError>
    ensures limits { workspace.new.limits ≡ workspace.old.limits }
    ensures learns { LearnsFor root.now workspace.old.texts.known workspace.new.texts.known }
    ensures no_root { result ≡ Err NoRoot → known_map workspace.new.texts.known root.now ≡ Some None }
    ensures told { IfSome (S.files shelf.old) (λ files. IfSome (answer_queried result)
        (λ given. Queries workspace.old.limits files root.now colour workspace.old.texts.known workspace.new.texts.known given)) }
    ensures size { IfOk result (λ answer. length answer.entries ≤ workspace.old.limits.entries) }
    ensures steps { IfOk result (λ answer. AreSteps (length answer.entries) answer.steps) }
    ensures shelf { IsOnlyRead (S.files shelf.old) (S.files shelf.new) (S.faults shelf.old) (S.faults shelf.new) (result ≡ Err ReadFault) }
{
    root_law();
    steps_law();
    tint_law();
    let result = workspace.answer(shelf, root, colour);
    // Its clauses say that no file is known twice.
    let _ = workspace.texts().known();
    result
}

// An edit of the texts as they stand.
pub(crate) fn change<S: Shelf>(
    workspace: &mut Workspace,
    shelf: &mut S,
    edit: &Edit,
) -> Result<(), EditError>
    ensures limits { workspace.new.limits ≡ workspace.old.limits }
    ensures told { IfSome (S.files shelf.old) (λ files. IfSome (edit_given workspace.new.texts.known result)
        (λ given. given ≡ edit_step workspace.old.limits files workspace.old.texts.known edit.now)) }
    ensures shelf { IsOnlyRead (S.files shelf.old) (S.files shelf.new) (S.faults shelf.old) (S.faults shelf.new) (result ≡ Err EditError.ReadFault) }
{
    workspace.edit(shelf, edit)
}
