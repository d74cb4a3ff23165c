// Edits are prepared, or refused.
ghost use Rattle.std.specs.Prelude.{◌≡◌, ◌≤◌, ◌<◌, ◌+◌, ◌^◌, ℕ, [], ◌∷◌, IfOk, IfSome, OnErr, OnOk, Some, length, nat_lt};
ghost use Rattle.std.specs.List.{list_all};
ghost use Rattle.std.specs.Option.{option_copied};
ghost use Rattle.std.specs.Vec.{vec_capacity};
ghost use Rattle.ld_texts.specs.Editing.{AreKnown, edit_change, edited, files_in, is_block_text, lines_needed, refusal_of, refused_if, text_of};
ghost use Rattle.ld_texts.specs.Known.{weight_of};
ghost use Rattle.ld_texts.specs.Learning.{AppliesUnless, CanCommit, KeepsTexts, PreparesUnless};
ghost use Rattle.ld_line.specs.Word.{is_one_line};

use crate::change::Change;
use crate::edit::{Edit, EditRefusal, PrepareError};
use crate::ready::{Prepared, Ready};
use crate::text::{KnownText, line_weight, weigh};
use crate::texts::Texts;
use ld_line::{BlockLine, block_line};
use ld_names::{Bytes, FileId};
use std::alloc::AllocError;

impl Texts {
    /// Takes the memory that an edit of known files needs.
    ///
    /// # Errors
    ///
    /// `Refused` by the first that holds: a line that it brings holds a line feed, or begins or ends a
    /// block; the file is absent, or `from` of `Move`; the file of `New` or `Restore` is present, or
    /// `to` of `Move`; there is no such line, or none to insert before or behind; the texts would
    /// weigh more than they may. Then `Memory`.
    pub fn prepare(&mut self, edit: &Edit) -> Result<Ready, PrepareError>
        requires { AreKnown self.old.known (files_in edit.now) }
        ensures result { PreparesUnless (refusal_of self.old.max_weight self.old.known edit.now) edit.now result }
        ensures ready { IfOk result (CanCommit self.new) }
        ensures same { KeepsTexts self.old self.new }
    {
        if let Some(refusal) = self.refusal(edit) {
            return Err(PrepareError::Refused(refusal));
        }
        let room = self.room(edit)?;
        let edit = edit.copy(self.alloc)?;
        Ok(Ready {
            prepared: Prepared::Edit { edit, room },
        })
    }

    /// Makes an edit of known files. Where it is refused, or memory is lacking, all is as before.
    ///
    /// # Errors
    ///
    /// As `prepare`.
    pub fn apply(&mut self, edit: &Edit) -> Result<Change, PrepareError>
        requires { AreKnown self.old.known (files_in edit.now) }
        ensures result { AppliesUnless (refusal_of self.old.max_weight self.old.known edit.now) (edit_change self.old.known edit.now) result }
        ensures known { OnOk result (self.new.known ≡ edited self.old.known edit.now) }
        ensures same { OnErr result (KeepsTexts self.old self.new) }
        ensures max_files { self.new.max_files ≡ self.old.max_files }
        ensures max_weight { self.new.max_weight ≡ self.old.max_weight }
    {
        match self.prepare(edit) {
            Ok(ready) => Ok(self.commit(ready)),
            Err(error) => Err(error),
        }
    }

    // Memory for the lines of the edited text, with room for more where it is used up.
    fn room(&self, edit: &Edit) -> Result<Vec<Bytes>, AllocError>
        ensures empty { IfOk result (λ room. room.items ≡ []) }
        ensures room { IfOk result (λ room. lines_needed (text_of self.now.known) edit.now ≤ vec_capacity room) }
    {
        let Edit::Insert { file, .. } = edit else {
            return Ok(Vec::new(self.alloc));
        };
        let len = match self.text_of(file) {
            None => 0,
            Some(text) => text.lines().len(),
        };
        Vec::with_capacity(self.alloc, len + len / 2 + 1)
    }

    fn refusal(&self, edit: &Edit) -> Option<EditRefusal>
        requires { AreKnown self.now.known (files_in edit.now) }
        ensures { result ≡ refusal_of self.now.max_weight self.now.known edit.now }
    {
        match edit {
            Edit::Set { file, line, text } => self.set_refusal(file, *line, text.as_slice()),
            Edit::Insert { file, line, text } => self.insert_refusal(file, *line, text.as_slice()),
            Edit::Delete { file, line } => self.delete_refusal(file, *line),
            Edit::New { file } => self.new_refusal(file),
            Edit::Restore { file, lines } => self.restore_refusal(file, lines.as_slice()),
            Edit::Drop { file } => self.drop_refusal(file),
            Edit::Move { from, to } => self.move_refusal(from, to),
        }
    }

    fn set_refusal(&self, file: &FileId, line: u32, text: &[u8]) -> Option<EditRefusal>
        ensures { result ≡ refusal_of self.now.max_weight self.now.known (Edit.Set file.now line text.now) }
    {
        let _ = &self.alloc;
        if !is_block_text(text) {
            return Some(EditRefusal::BadLine);
        }
        let Some(lines) = self.text_of(file) else {
            return Some(EditRefusal::NoFile);
        };
        if let Some(refusal) = lines.misses(0, line) {
            return Some(refusal);
        }
        let gone = lines.weight_at(line as usize - 1);
        self.overweight(gone, line_weight(text))
    }

    fn insert_refusal(&self, file: &FileId, line: u32, text: &[u8]) -> Option<EditRefusal>
        ensures { result ≡ refusal_of self.now.max_weight self.now.known (Edit.Insert file.now line text.now) }
    {
        let _ = &self.alloc;
        if !is_block_text(text) {
            return Some(EditRefusal::BadLine);
        }
        let Some(lines) = self.text_of(file) else {
            return Some(EditRefusal::NoFile);
        };
        if let Some(refusal) = lines.misses(1, line) {
            return Some(refusal);
        }
        self.overweight(0, line_weight(text))
    }

    fn delete_refusal(&self, file: &FileId, line: u32) -> Option<EditRefusal>
        ensures { result ≡ refusal_of self.now.max_weight self.now.known (Edit.Delete file.now line) }
    {
        let _ = &self.alloc;
        let Some(lines) = self.text_of(file) else {
            return Some(EditRefusal::NoFile);
        };
        lines.misses(0, line)
    }

    fn new_refusal(&self, file: &FileId) -> Option<EditRefusal>
        ensures { result ≡ refusal_of self.now.max_weight self.now.known (Edit.New file.now) }
    {
        let _ = &self.alloc;
        match self.text_of(file) {
            None => None,
            Some(_) => Some(EditRefusal::FileThere),
        }
    }

    fn restore_refusal(&self, file: &FileId, lines: &[Bytes]) -> Option<EditRefusal>
        requires { AreKnown self.now.known (file.now ∷ []) }
        ensures { result ≡ refusal_of self.now.max_weight self.now.known (Edit.Restore file.now lines.now) }
    {
        let _ = &self.alloc;
        if !are_block_texts(lines) {
            return Some(EditRefusal::BadLine);
        }
        if self.text_of(file).is_some() {
            return Some(EditRefusal::FileThere);
        }
        let left = self.max_weight - self.weight;
        if weigh(lines) > left {
            return Some(EditRefusal::Full(self.weight));
        }
        None
    }

    fn drop_refusal(&self, file: &FileId) -> Option<EditRefusal>
        ensures { result ≡ refusal_of self.now.max_weight self.now.known (Edit.Drop file.now) }
    {
        let _ = &self.alloc;
        match self.text_of(file) {
            None => Some(EditRefusal::NoFile),
            Some(_) => None,
        }
    }

    fn move_refusal(&self, from: &FileId, to: &FileId) -> Option<EditRefusal>
        ensures { result ≡ refusal_of self.now.max_weight self.now.known (Edit.Move from.now to.now) }
    {
        let _ = &self.alloc;
        match self.text_of(from) {
            None => Some(EditRefusal::NoFile),
            Some(_) => self.new_refusal(to),
        }
    }

    // The weight that is kept, where it passes the limit with so much less and so much more.
    fn overweight(&self, gone: u64, added: u64) -> Option<EditRefusal>
        requires gone { gone ≤ weight_of self.now.known }
        requires added { added ≤ 2 ^ 63 + 2 ^ 10 }
        ensures { (after : ℕ) → after + gone ≡ weight_of self.now.known + added
            → result ≡ refused_if (nat_lt self.now.max_weight after) (EditRefusal.Full (weight_of self.now.known)) }
    {
        if self.weight - gone + added > self.max_weight {
            return Some(EditRefusal::Full(self.weight));
        }
        None
    }

    fn text_of(&self, file: &FileId) -> Option<&KnownText>
        ensures lines { option_copied result ≡ text_of self.now.known file.now }
        ensures small { IfSome result (λ text. length text.now < 2 ^ 32) }
    {
        let id = self.id(file)?;
        self.text(id)
    }
}

// Whether a block may hold the line: it has no line feed, and neither begins nor ends a block (MPD
// Language Extension).
fn is_block_text(line: &[u8]) -> bool
    ensures { result ≡ is_block_text line.now }
{
    is_one_line(line) && block_line(line) == BlockLine::Other
}

fn are_block_texts(lines: &[Bytes]) -> bool
    ensures { result ≡ list_all is_block_text lines.now }
{
    lines.iter().all(|line| is_block_text(line.as_slice()))
}

fn is_one_line(line: &[u8]) -> bool
    ensures { result ≡ is_one_line line.now }
{
    line.iter().all(|byte| *byte != b'\n')
}
