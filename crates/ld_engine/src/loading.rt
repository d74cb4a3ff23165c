// The text blocks of a model's file become known files.
ghost use Rattle.std.specs.Prelude.{◌≡◌, ◌≤◌, ◌<◌, [], ◌∷◌, length, map, true, bytes_eq};
ghost use Rattle.std.specs.List.{IsDistinct, list_all};
ghost use Rattle.ld_mpd.specs.Blocks.{are_inside, text_blocks, texts_in};
ghost use Rattle.ld_engine.specs.Loading.{AreNew, Loads, LoadsBehind, LoadsUpTo, load_refused};

use crate::workspace::Workspace;
use ld_mpd::{Block, block_laws, split};
use ld_names::{FileId, Folder, Name, TextId, file_laws};
use ld_texts::{LearnError, Over, Texts, learning_law, number_law};
use std::alloc::AllocError;
use thiserror::Error;

/// Why a model is not loaded.
#[derive(Clone, Copy, Debug, PartialEq, Eq, Error)]
pub enum LoadError {
    /// The limit that the first text block that does not fit would pass, with what is kept before it.
    #[error("a limit on the known files is passed")]
    Full(Over),
    #[error("memory was lacking")]
    Memory,
}

impl From<AllocError> for LoadError {
    ghost use Rattle.std.specs.Prelude.{◌≡◌};
    ghost use Rattle.ld_engine.specs.declared.loading.LoadError.TheVariants.{Memory};

    ghost from_gives = { λ _ e. e ≡ Memory };

    fn from(_error: AllocError) -> LoadError {
        LoadError::Memory
    }
}

impl Workspace {
    /// Makes the text blocks of a model's file known, beside the model and in order. Gives the main
    /// model, which is the first. After a refusal nothing is known (MPD Language Extension).
    ///
    /// # Errors
    ///
    /// `Full` only where the text blocks pass a limit, by the first that does; `Memory`, which may
    /// be answered in its place.
    pub fn load(&mut self, own: &Name, bytes: &[u8]) -> Result<FileId, LoadError>
        requires nothing_known { self.old.texts.known ≡ [] }
        requires size { length bytes.now ≤ self.old.limits.file_bytes }
        ensures limits { self.new.limits ≡ self.old.limits }
        ensures loads { Loads self.old.limits (text_blocks own.now bytes.now) self.new.texts.known result }
    {
        match self.load_texts(own, bytes) {
            Ok(main) => Ok(main),
            Err(error) => {
                self.forget();
                Err(error)
            }
        }
    }

    // Nothing is known any more.
    fn forget(&mut self)
        ensures limits { self.new.limits ≡ self.old.limits }
        ensures nothing_known { self.new.texts.known ≡ [] }
    {
        self.texts = Texts::new(self.alloc, self.limits.texts, self.limits.total_weight);
    }

    // Makes the text blocks known, up to the first that does not fit.
    fn load_texts(&mut self, own: &Name, bytes: &[u8]) -> Result<FileId, LoadError>
        requires nothing_known { self.old.texts.known ≡ [] }
        ensures limits { self.new.limits ≡ self.old.limits }
        ensures loads { LoadsUpTo self.old.limits (text_blocks own.now bytes.now) self.new.texts.known result }
    {
        block_laws();
        number_law();
        learning_law();
        let blocks = split(self.alloc, bytes, own)?;
        if let Err(error) = self.load_blocks(blocks) {
            return Err(error);
        }
        Ok(self.texts().file(TextId(0)).unwrap().copy(self.alloc)?)
    }

    fn load_blocks(&mut self, blocks: Vec<Block>) -> Result<(), LoadError>
        requires new { AreNew self.old.texts.known (texts_in blocks.items) }
        requires different { IsDistinct bytes_eq (map (λ text. text.0) (texts_in blocks.items)) }
        requires clean { list_all (λ text. are_inside text.1) (texts_in blocks.items) ≡ true }
        ensures limits { self.new.limits ≡ self.old.limits }
        ensures loads { LoadsBehind self.old.limits self.old.texts.known (texts_in blocks.items) self.new.texts.known result }
    {
        learning_law();
        file_laws();
        let mut rest = blocks.into_iter();
        while let Some(block) = rest.next() {
            if let Err(error) = self.load_block(block) {
                return Err(error);
            }
        }
        Ok(())
    }

    fn load_block(&mut self, block: Block) -> Result<(), LoadError>
        requires new { AreNew self.old.texts.known (texts_in (block ∷ [])) }
        requires clean { list_all (λ text. are_inside text.1) (texts_in (block ∷ [])) ≡ true }
        ensures limits { self.new.limits ≡ self.old.limits }
        ensures loads { LoadsBehind self.old.limits self.old.texts.known (texts_in (block ∷ [])) self.new.texts.known result }
    {
        if block.is_data {
            return Ok(());
        }
        let file = FileId {
            folder: Folder::Model(1),
            name: block.name,
        };
        match self.texts.prepare_file(&file, Some(block.lines)) {
            Ok(ready) => {
                self.texts.commit(ready);
                Ok(())
            }
            Err(error) => Err(refused(error)),
        }
    }
}

fn refused(error: LearnError) -> LoadError
    ensures { result ≡ load_refused error }
{
    match error {
        LearnError::Full(over) => LoadError::Full(over),
        LearnError::Memory => LoadError::Memory,
    }
}
