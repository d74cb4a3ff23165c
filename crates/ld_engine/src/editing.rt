// Edits of the texts.
ghost use Rattle.std.specs.Prelude.{◌≡◌, ◌∷◌, [], Err, IfErr, IfSome, IsSome, None, OnErr, OnOk};
ghost use Rattle.std.specs.Option.{option_copied};
ghost use Rattle.ld_io.specs.Shelf.{IsOnlyRead};
ghost use Rattle.ld_texts.specs.Editing.{AreKnown, files_in};
ghost use Rattle.ld_engine.specs.Editing.{EditStands, Edits, EditsKnown, EditsTold, edit_refused, edit_stopped, first_unknown, wanted_by};
ghost use Rattle.ld_engine.specs.Keeping.{StopsFor, ToldFor};
ghost use Rattle.ld_engine.specs.Learning.{LearnsBy, text_on};

use crate::learning::LearnStop;
use crate::workspace::Workspace;
use ld_io::Shelf;
use ld_names::{FileId, known_law, lookup_law};
use ld_texts::{Edit, EditRefusal, Over, PrepareError, Texts, block_law, edit_law, number_law};
use thiserror::Error;

/// Why an edit is not made.
#[derive(Debug, Drop, Error)]
pub enum EditError {
    /// The texts do not allow it.
    #[error("the edit is refused")]
    Refused(EditRefusal),
    #[error("a file could not be read")]
    ReadFault,
    /// The file has more bytes than a file may have.
    #[error("a file is too big")]
    TooBig(FileId),
    /// The limit that a further file would pass, with what is kept.
    #[error("a limit on the known files is passed")]
    Full(Over),
    #[error("memory was lacking")]
    Memory,
}

fn stopped_by(stop: LearnStop) -> EditError
    ensures { result ≡ edit_stopped stop }
{
    match stop {
        LearnStop::ReadFault => EditError::ReadFault,
        LearnStop::TooBig(file) => EditError::TooBig(file),
        LearnStop::Full(over) => EditError::Full(over),
        LearnStop::Memory => EditError::Memory,
    }
}

fn refused_by(error: PrepareError) -> EditError
    ensures { result ≡ edit_refused error }
{
    match error {
        PrepareError::Refused(why) => EditError::Refused(why),
        PrepareError::Memory => EditError::Memory,
    }
}

fn unless_known<'a>(texts: &Texts, file: &'a FileId) -> Option<&'a FileId>
    ensures { option_copied result ≡ first_unknown texts.now.known (file.now ∷ []) }
{
    match texts.id(file) {
        None => Some(file),
        Some(_) => None,
    }
}

// The first file that the edit names and that is not known.
fn first_unknown<'a>(texts: &Texts, edit: &'a Edit) -> Option<&'a FileId>
    ensures { option_copied result ≡ wanted_by edit.now texts.now.known }
{
    match edit {
        Edit::Set { file, .. } => unless_known(texts, file),
        Edit::Insert { file, .. } => unless_known(texts, file),
        Edit::Delete { file, .. } => unless_known(texts, file),
        Edit::New { file } => unless_known(texts, file),
        Edit::Restore { file, .. } => unless_known(texts, file),
        Edit::Drop { file } => unless_known(texts, file),
        Edit::Move { from, to } => match texts.id(from) {
            None => Some(from),
            Some(_) => unless_known(texts, to),
        },
    }
}

impl Workspace {
    /// Learns the files that the edit names and that are not known, in order, and makes the edit.
    /// What is not refused changes the texts as they stand; after an error they are as before.
    ///
    /// # Errors
    ///
    /// A stop of the learning, after which a file that the edit names is still not known; `Refused`
    /// where the texts do not allow the edit; `Memory`, where they do or a file is still not known.
    pub fn edit<S: Shelf>(&mut self, shelf: &mut S, edit: &Edit) -> Result<(), EditError>
        ensures limits { self.new.limits ≡ self.old.limits }
        ensures edits { Edits self.old.limits edit.now self.old.texts.known self.new.texts.known result }
        ensures known { AreKnown self.old.texts.known (files_in edit.now) →
            EditsKnown self.old.limits edit.now self.old.texts.known self.new.texts.known result }
        ensures told { IfSome (S.files shelf.old) (λ files.
            EditsTold self.old.limits files edit.now self.old.texts.known self.new.texts.known result) }
        ensures stands { IfSome (S.files shelf.old) (λ files.
            EditStands (text_on files) edit.now self.old.texts.known self.new.texts.known result) }
        ensures shelf { IsOnlyRead (S.files shelf.old) (S.files shelf.new) (S.faults shelf.old) (S.faults shelf.new) (result ≡ Err EditError.ReadFault) }
        ensures unread { AreKnown self.old.texts.known (files_in edit.now) → shelf.new ≡ shelf.old }
    {
        number_law();
        lookup_law();
        known_law();
        edit_law();
        match self.learn_named(shelf, edit) {
            Ok(()) => self.edit_known(edit),
            Err(stop) => Err(stopped_by(stop)),
        }
    }

    // Learns the files that an edit names.
    fn learn_named<S: Shelf>(&mut self, shelf: &mut S, edit: &Edit) -> Result<(), LearnStop>
        ensures limits { self.new.limits ≡ self.old.limits }
        ensures learns { LearnsBy (wanted_by edit.now) self.old.texts.known self.new.texts.known }
        ensures learnt { OnOk result (AreKnown self.new.texts.known (files_in edit.now)) }
        ensures wants { OnErr result (IsSome (wanted_by edit.now self.new.texts.known)) }
        ensures stops { IfErr result (λ stop. StopsFor self.old.limits (wanted_by edit.now) self.new.texts.known stop) }
        ensures told { IfSome (S.files shelf.old) (λ files.
            ToldFor self.old.limits files (wanted_by edit.now) self.old.texts.known self.new.texts.known result) }
        ensures shelf { IsOnlyRead (S.files shelf.old) (S.files shelf.new) (S.faults shelf.old) (S.faults shelf.new) (result ≡ Err LearnStop.ReadFault) }
        ensures unread { wanted_by edit.now self.old.texts.known ≡ None → shelf.new ≡ shelf.old }
    {
        while let Some(file) = first_unknown(self.texts(), edit) {
            if let Err(stop) = self.learn_copy(shelf, file) {
                return Err(stop);
            }
        }
        Ok(())
    }

    // Makes an edit of known files.
    fn edit_known(&mut self, edit: &Edit) -> Result<(), EditError>
        requires { AreKnown self.old.texts.known (files_in edit.now) }
        ensures limits { self.new.limits ≡ self.old.limits }
        ensures edits { EditsKnown self.old.limits edit.now self.old.texts.known self.new.texts.known result }
    {
        block_law();
        if let Err(error) = self.texts.apply(edit) {
            return Err(refused_by(error));
        }
        Ok(())
    }
}
