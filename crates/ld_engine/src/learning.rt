// Files are learnt, each when a root wants it.
ghost use Rattle.std.specs.Prelude.{◌≡◌, ◌<◌, Err, IfErr, IfOk, IfSome, None, OnOk, Some, length, true};
ghost use Rattle.ld_io.specs.Shelf.{IsOnlyRead};
ghost use Rattle.ld_texts.specs.Known.{id_of};
ghost use Rattle.ld_engine.specs.Keeping.{IsLearntFor, Keeps, LearnsFile, StopsAt, StopsFor, Tells, ToldFor, refused_by, stopped_at};
ghost use Rattle.ld_engine.specs.Learning.{LearnsFor, Wanting, is_clean, wanted_for};

use crate::fetching::{FetchStop, fetch_text};
use crate::going::Going;
use crate::workspace::Workspace;
use ld_io::Shelf;
use ld_names::{FileId, Lines, TextId};
use ld_texts::{LearnError, Over, learning_law, number_law};
use std::alloc::AllocError;

// Why a file is not learnt.
#[derive(Drop)]
pub(crate) enum LearnStop {
    ReadFault,
    TooBig(FileId),
    Full(Over),
    Memory,
}

impl From<AllocError> for LearnStop {
    ghost use Rattle.std.specs.Prelude.{◌≡◌};
    ghost use Rattle.ld_engine.specs.declared.learning.LearnStop.TheVariants.{Memory};

    ghost from_gives = { λ _ e. e ≡ Memory };

    fn from(_error: AllocError) -> LearnStop {
        LearnStop::Memory
    }
}

impl Workspace {
    // Learns all that a root wants.
    pub(crate) fn learn_for<S: Shelf>(
        &mut self,
        shelf: &mut S,
        root: &FileId,
    ) -> Result<TextId, LearnStop>
        ensures limits { self.new.limits ≡ self.old.limits }
        ensures learns { LearnsFor root.now self.old.texts.known self.new.texts.known }
        ensures learnt { IfOk result (λ id. IsLearntFor root.now self.new.texts.known id.0) }
        ensures stops { IfErr result (λ stop. StopsFor self.old.limits (wanted_for root.now) self.new.texts.known stop) }
        ensures told { IfSome (S.files shelf.old) (λ files. ToldFor self.old.limits files (wanted_for root.now) self.old.texts.known self.new.texts.known result) }
        ensures shelf { IsOnlyRead (S.files shelf.old) (S.files shelf.new) (S.faults shelf.old) (S.faults shelf.new) (result ≡ Err LearnStop.ReadFault) }
        ensures unread { wanted_for root.now self.old.texts.known ≡ None → shelf.new ≡ shelf.old }
    {
        number_law();
        learning_law();
        let id = self.learn_root(shelf, root)?;
        let mut going = Going::new(self.alloc, id)?;
        while let Some(file) = going.next_wanted(self.alloc, self.texts())? {
            if let Err(stop) = self.learn_file(shelf, file) {
                return Err(stop);
            }
        }
        Ok(id)
    }

    // Learns the root itself, where it is not known.
    fn learn_root<S: Shelf>(&mut self, shelf: &mut S, root: &FileId) -> Result<TextId, LearnStop>
        ensures limits { self.new.limits ≡ self.old.limits }
        ensures learns { LearnsFor root.now self.old.texts.known self.new.texts.known }
        ensures known { IfOk result (λ id. id_of self.new.texts.known root.now ≡ Some id.0) }
        ensures stops { IfErr result (λ stop. StopsFor self.old.limits (wanted_for root.now) self.new.texts.known stop) }
        ensures told { IfSome (S.files shelf.old) (λ files. Tells self.old.limits files (wanted_for root.now) self.old.texts.known self.new.texts.known result) }
        ensures shelf { IsOnlyRead (S.files shelf.old) (S.files shelf.new) (S.faults shelf.old) (S.faults shelf.new) (result ≡ Err LearnStop.ReadFault) }
        ensures unread { wanted_for root.now self.old.texts.known ≡ None → shelf.new ≡ shelf.old }
    {
        if let Some(id) = self.texts().id(root) {
            return Ok(id);
        }
        self.learn_copy(shelf, root)
    }

    // Keeps a file with its text, or as absent.
    fn keep(&mut self, file: FileId, text: Option<Lines>) -> Result<TextId, LearnStop>
        requires unknown { id_of self.old.texts.known file ≡ None }
        requires clean { is_clean text ≡ true }
        ensures limits { self.new.limits ≡ self.old.limits }
        ensures keeps { Keeps self.old.limits self.old.texts.known self.new.texts.known file text result }
    {
        match self.texts.prepare_file(&file, text) {
            Ok(ready) => Ok(self.texts.commit(ready).first.0),
            Err(error) => Err(refused_by(error)),
        }
    }

    // Learns a file that is wanted, by a copy of what names it.
    pub(crate) fn learn_copy<S: Shelf>(
        &mut self,
        shelf: &mut S,
        file: &FileId,
    ) -> Result<TextId, LearnStop>
        requires unknown { id_of self.old.texts.known file.now ≡ None }
        ensures limits { self.new.limits ≡ self.old.limits }
        ensures learns { LearnsFile self.old.texts.known self.new.texts.known file.now result }
        ensures room { OnOk result (length self.old.texts.known < self.old.limits.texts) }
        ensures stops { IfErr result (λ stop. StopsAt self.old.limits self.old.texts.known file.now stop) }
        ensures told { IfSome (S.files shelf.old) (λ files. (wants : Wanting) → wants self.old.texts.known ≡ Some file.now →
            Tells self.old.limits files wants self.old.texts.known self.new.texts.known result) }
        ensures shelf { IsOnlyRead (S.files shelf.old) (S.files shelf.new) (S.faults shelf.old) (S.faults shelf.new) (result ≡ Err LearnStop.ReadFault) }
        ensures unfetched { length self.old.texts.known ≡ self.old.limits.texts → shelf.new ≡ shelf.old }
    {
        let file = file.copy(self.alloc)?;
        self.learn_file(shelf, file)
    }

    // Learns a file that is wanted.
    fn learn_file<S: Shelf>(&mut self, shelf: &mut S, file: FileId) -> Result<TextId, LearnStop>
        requires unknown { id_of self.old.texts.known file ≡ None }
        ensures limits { self.new.limits ≡ self.old.limits }
        ensures learns { LearnsFile self.old.texts.known self.new.texts.known file result }
        ensures room { OnOk result (length self.old.texts.known < self.old.limits.texts) }
        ensures stops { IfErr result (λ stop. StopsAt self.old.limits self.old.texts.known file stop) }
        ensures memory { result ≡ Err LearnStop.Memory → length self.old.texts.known < self.old.limits.texts }
        ensures told { IfSome (S.files shelf.old) (λ files. (wants : Wanting) → wants self.old.texts.known ≡ Some file →
            Tells self.old.limits files wants self.old.texts.known self.new.texts.known result) }
        ensures shelf { IsOnlyRead (S.files shelf.old) (S.files shelf.new) (S.faults shelf.old) (S.faults shelf.new) (result ≡ Err LearnStop.ReadFault) }
        ensures unfetched { length self.old.texts.known ≡ self.old.limits.texts → shelf.new ≡ shelf.old }
    {
        let limits = self.limits();
        if self.texts().known() == limits.texts {
            return Err(LearnStop::Full(Over::Files(limits.texts)));
        }
        match fetch_text(self.alloc, shelf, &file, limits.file_bytes) {
            Ok(text) => self.keep(file, text),
            Err(stop) => Err(stopped_by(stop, file)),
        }
    }
}

fn refused_by(error: LearnError) -> LearnStop
    ensures { result ≡ refused_by error }
{
    match error {
        LearnError::Full(over) => LearnStop::Full(over),
        LearnError::Memory => LearnStop::Memory,
    }
}

fn stopped_by(stop: FetchStop, file: FileId) -> LearnStop
    ensures { result ≡ stopped_at file stop }
{
    match stop {
        FetchStop::ReadFault => LearnStop::ReadFault,
        FetchStop::TooBig => LearnStop::TooBig(file),
        FetchStop::Memory => LearnStop::Memory,
    }
}
