// Goes through what a text reaches, and stops at each file that is not known.
ghost use Rattle.std.specs.Prelude.{◌≡◌, ◌<◌, ℕ, true, IfOk, IfSome, ◌+◌, ◌^◌, length, option_map, slice_get, List, OnOk, None, Some, nat_eq};
ghost use Rattle.std.specs.List.{IsDistinct};
ghost use Rattle.std.specs.Option.{option_copied};
ghost use Rattle.ld_texts.specs.Known.{lines_at};
ghost use Rattle.ld_texts.specs.Reach.{Reaches, lines_in};
ghost use Rattle.ld_names.specs.Standing.{Known};
ghost use Rattle.ld_names.specs.declared.file.Folder.{Folder};
ghost use Rattle.ld_engine.specs.Going.{Goes, Grows, IsInside, Passed, Steps, begins_drawn, begun, file_rest, is_drawn_type, left, line_step, name_step};

use crate::find::{Sought, seek};
use crate::seen::next_line;
use indexmap::IndexSet;
use ld_line::{Line, fields_law, read_line, split_field};
use ld_names::{FileId, Folder, Name, TextId};
use ld_texts::{Texts, learning_law, number_law};
use std::alloc::{AllocError, Global};
use std::marker::Model;

/// How far a root's references are gone through.
#[derive(Drop)]
pub(crate) struct Going {
    // The numbers of the texts reached, in order.
    texts: IndexSet<u32>,
    // The place among them of the text that is gone through, and how many of its lines are done.
    place: usize,
    lines: u32,
}

impl Model for Going {
    ghost use Rattle.ld_engine.specs.Going.{Passed};
    ghost use Rattle.std.specs.Prelude.{nat_eq};
    ghost use Rattle.std.specs.List.{IsDistinct};
    ghost use Rattle.std.specs.Option.{option_copied};
    ghost use Rattle.ld_texts.specs.Known.{lines_at};
    ghost use Rattle.ld_texts.specs.Reach.{lines_in};

    ghost Value = { Passed };

    ghost view = { λ going. record { texts = going.texts.keys; place = going.place; lines = going.lines } };

    ghost invariant = { λ going. IsDistinct nat_eq going.texts.keys };
}

impl Going {
    pub(crate) fn new(alloc: Global, root: TextId) -> Result<Going, AllocError>
        ensures { IfOk result (λ going. going ≡ begun root.0) }
    {
        let mut texts = IndexSet::new(alloc);
        texts.insert(root.0)?;
        Ok(Going {
            texts,
            place: 0,
            lines: 0,
        })
    }

    // Goes on to the next file that is wanted.
    pub(crate) fn next_wanted(
        &mut self,
        alloc: Global,
        texts: &Texts,
    ) -> Result<Option<FileId>, AllocError>
        requires inside { IsInside texts.now.known self.old.texts }
        ensures inside { OnOk result (IsInside texts.now.known self.new.texts) }
        ensures goes { IfOk result (λ wanted. Goes left texts.now.known self.old self.new wanted) }
    {
        while let Some(id) = self.current() {
            if let Some(wanted) = self.pass_text(alloc, texts, id)? {
                return Ok(Some(wanted));
            }
            self.end_text();
        }
        Ok(None)
    }

    // The text that is gone through.
    fn current(&self) -> Option<TextId>
        ensures id { option_map (λ id. id.0) result ≡ slice_get self.now.texts self.now.place }
        ensures distinct { IsDistinct nat_eq self.now.texts }
        ensures small { IfSome result (λ id. self.now.place + 1 < 2 ^ 64) }
    {
        if self.place >= self.texts.len() {
            return None;
        }
        let id = self.texts.get_index(self.place)?;
        Some(TextId(*id))
    }

    fn end_line(&mut self)
        requires { self.old.lines + 1 < 2 ^ 32 }
        ensures { self.new ≡ record self.old { lines = self.old.lines + 1 } }
    {
        self.lines += 1;
    }

    fn end_text(&mut self)
        requires { self.old.place + 1 < 2 ^ 64 }
        ensures next { self.new ≡ record { texts = self.old.texts; place = self.old.place + 1; lines = 0 } }
        ensures distinct { IsDistinct nat_eq self.old.texts }
    {
        self.place += 1;
        self.lines = 0;
    }

    // Goes through the lines of a text that are left.
    fn pass_text(
        &mut self,
        alloc: Global,
        texts: &Texts,
        id: TextId,
    ) -> Result<Option<FileId>, AllocError>
        requires known { id.0 < length texts.now.known }
        requires inside { IsInside texts.now.known self.old.texts }
        ensures inside { OnOk result (IsInside texts.now.known self.new.texts) }
        ensures grows { OnOk result (Grows self.old.texts self.new.texts) }
        ensures place { OnOk result (self.new.place ≡ self.old.place) }
        ensures goes { IfOk result (λ wanted. Goes (file_rest id.0) texts.now.known self.old self.new wanted) }
    {
        learning_law();
        number_law();
        let Some(file) = texts.file(id) else {
            unreachable!();
        };
        let from = file.folder;
        while let Some(line) = self.next_line(texts, id) {
            if let Some(wanted) = self.pass_line(alloc, texts, from, line)? {
                return Ok(Some(wanted));
            }
            self.end_line();
        }
        Ok(None)
    }

    fn pass_line(
        &mut self,
        alloc: Global,
        texts: &Texts,
        from: Folder,
        line: &[u8],
    ) -> Result<Option<FileId>, AllocError>
        requires inside { IsInside texts.now.known self.old.texts }
        ensures inside { OnOk result (IsInside texts.now.known self.new.texts) }
        ensures grows { OnOk result (Grows self.old.texts self.new.texts) }
        ensures place { OnOk result (self.new.place ≡ self.old.place) }
        ensures lines { OnOk result (self.new.lines ≡ self.old.lines) }
        ensures steps { IfOk result (λ wanted. Steps texts.now.known (line_step from line.now self.old.texts) self.old.texts self.new.texts wanted) }
    {
        if is_drawn(line) {
            return Ok(None);
        }
        match read_line(alloc, line)? {
            Line::Ref {
                name: Some(name),
                ..
            } => self.pass_name(texts, from, name),
            _ => Ok(None),
        }
    }

    // The first line of a text that is left.
    fn next_line<'a>(&self, texts: &'a Texts, id: TextId) -> Option<&'a [u8]>
        ensures line { option_copied result ≡ slice_get (lines_in (lines_at texts.now.known id.0)) self.now.lines }
        ensures small { IfSome result (λ line. self.now.lines + 1 < 2 ^ 32) }
    {
        next_line(texts, id, self.lines)
    }

    // Reaches what a name in a file of the folder finds, or gives the file that is wanted.
    fn pass_name(
        &mut self,
        texts: &Texts,
        from: Folder,
        name: Name,
    ) -> Result<Option<FileId>, AllocError>
        requires inside { IsInside texts.now.known self.old.texts }
        ensures inside { OnOk result (IsInside texts.now.known self.new.texts) }
        ensures grows { OnOk result (Grows self.old.texts self.new.texts) }
        ensures place { OnOk result (self.new.place ≡ self.old.place) }
        ensures lines { OnOk result (self.new.lines ≡ self.old.lines) }
        ensures steps { IfOk result (λ wanted. Steps texts.now.known (name_step from name self.old.texts) self.old.texts self.new.texts wanted) }
    {
        number_law();
        learning_law();
        match seek(texts, from, &name) {
            Sought::Text(id) => {
                self.texts.insert(id.0)?;
                Ok(None)
            }
            Sought::Absent => Ok(None),
            Sought::Unknown(folder) => Ok(Some(FileId { folder, name })),
        }
    }
}

// Whether the line is of type 2 to 5 (File Format 1.0.2, "Line Types"). It refers to nothing, so that
// its numbers need not be read.
#[tactic(auto, using(crate::proofs::Types::drawn_reaches))]
fn is_drawn(line: &[u8]) -> bool
    ensures { result ≡ true → (known : Known) (from : Folder) (texts : List ℕ) → line_step from line.now texts known ≡ Reaches texts }
{
    // Told at once where the type stands first, as it mostly does.
    if begins_drawn(line) {
        fields_law();
        return true;
    }
    match split_field(line) {
        Some((kind, _)) => is_drawn_type(kind),
        None => false,
    }
}

fn begins_drawn(line: &[u8]) -> bool
    ensures { result ≡ begins_drawn line.now }
{
    matches!(line, [b'2' | b'3' | b'4' | b'5', b' ' | b'\t', ..])
}

fn is_drawn_type(kind: &[u8]) -> bool
    ensures { result ≡ is_drawn_type kind.now }
{
    matches!(kind, [b'2' | b'3' | b'4' | b'5'])
}
