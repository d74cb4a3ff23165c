// Prepared edits are made.
ghost use Rattle.std.specs.Prelude.{◌≡◌, ◌≤◌, ◌<◌, ◌∷◌, [], IsSome, None, Some, length};
ghost use Rattle.std.specs.Vec.{vec_capacity};
ghost use Rattle.ld_texts.specs.Editing.{AreKnown, edit_change, edited, files_in, lines_needed, move_change, refusal_of, text_of, turned};
ghost use Rattle.ld_texts.specs.Inside.Placed.{with_text_at};
ghost use Rattle.ld_texts.specs.Known.{id_of, lines_at, weight_of};
ghost use Rattle.ld_texts.specs.declared.change.Turned.TheVariants.{Altered, Appeared, Went};

use crate::change::{Change, Turned};
use crate::edit::Edit;
use crate::text::{KnownText, weigh, weigh_text};
use crate::texts::Texts;
use ld_names::{Bytes, FileId, Lines, TextId};
use std::mem;

impl Texts {
    // Makes an edit that is not refused, with memory for the lines of the edited text.
    pub(crate) fn change(&mut self, edit: Edit, room: Vec<Bytes>) -> Change
        requires empty { room.items ≡ [] }
        requires room { lines_needed (text_of self.old.known) edit ≤ vec_capacity room }
        requires apt { AreKnown self.old.known (files_in edit) }
        requires fits { refusal_of self.old.max_weight self.old.known edit ≡ None }
        ensures known { self.new.known ≡ edited self.old.known edit }
        ensures max_files { self.new.max_files ≡ self.old.max_files }
        ensures max_weight { self.new.max_weight ≡ self.old.max_weight }
        ensures change { edit_change self.old.known edit ≡ Some result }
    {
        match edit {
            Edit::Set { file, line, text } => self.set(file, line, text),
            Edit::Insert { file, line, text } => self.insert(file, line, text, room),
            Edit::Delete { file, line } => self.delete(file, line),
            Edit::New { file } => self.new_file(file),
            Edit::Restore { file, lines } => self.restore(file, lines),
            Edit::Drop { file } => self.drop_file(file),
            Edit::Move { from, to } => self.move_file(from, to),
        }
    }

    fn set(&mut self, file: FileId, line: u32, text: Bytes) -> Change
        requires apt { AreKnown self.old.known (file ∷ []) }
        requires fits { refusal_of self.old.max_weight self.old.known (Edit.Set file line text) ≡ None }
        ensures known { self.new.known ≡ edited self.old.known (Edit.Set file line text) }
        ensures max_files { self.new.max_files ≡ self.old.max_files }
        ensures max_weight { self.new.max_weight ≡ self.old.max_weight }
        ensures change { turned self.old.known file Altered ≡ Some result }
    {
        let _ = &self.alloc;
        let id = self.number(&file);
        let mut lines = self.take(id).unwrap();
        lines.set(line as usize - 1, text);
        self.put(id, Some(lines));
        one_turned(id, Turned::Altered)
    }

    fn insert(&mut self, file: FileId, line: u32, text: Bytes, room: Vec<Bytes>) -> Change
        requires empty { room.items ≡ [] }
        requires room { lines_needed (text_of self.old.known) (Edit.Insert file line text) ≤ vec_capacity room }
        requires apt { AreKnown self.old.known (file ∷ []) }
        requires fits { refusal_of self.old.max_weight self.old.known (Edit.Insert file line text) ≡ None }
        ensures known { self.new.known ≡ edited self.old.known (Edit.Insert file line text) }
        ensures max_files { self.new.max_files ≡ self.old.max_files }
        ensures max_weight { self.new.max_weight ≡ self.old.max_weight }
        ensures change { turned self.old.known file Altered ≡ Some result }
    {
        let _ = &self.alloc;
        let id = self.number(&file);
        let mut lines = self.take(id).unwrap();
        lines.insert(line as usize - 1, text, room);
        self.put(id, Some(lines));
        one_turned(id, Turned::Altered)
    }

    fn delete(&mut self, file: FileId, line: u32) -> Change
        requires apt { AreKnown self.old.known (file ∷ []) }
        requires fits { refusal_of self.old.max_weight self.old.known (Edit.Delete file line) ≡ None }
        ensures known { self.new.known ≡ edited self.old.known (Edit.Delete file line) }
        ensures max_files { self.new.max_files ≡ self.old.max_files }
        ensures max_weight { self.new.max_weight ≡ self.old.max_weight }
        ensures change { turned self.old.known file Altered ≡ Some result }
    {
        let _ = &self.alloc;
        let id = self.number(&file);
        let mut lines = self.take(id).unwrap();
        lines.remove(line as usize - 1);
        self.put(id, Some(lines));
        one_turned(id, Turned::Altered)
    }

    fn new_file(&mut self, file: FileId) -> Change
        requires apt { AreKnown self.old.known (file ∷ []) }
        requires fits { refusal_of self.old.max_weight self.old.known (Edit.New file) ≡ None }
        ensures known { self.new.known ≡ edited self.old.known (Edit.New file) }
        ensures max_files { self.new.max_files ≡ self.old.max_files }
        ensures max_weight { self.new.max_weight ≡ self.old.max_weight }
        ensures change { turned self.old.known file Appeared ≡ Some result }
    {
        let _ = &self.alloc;
        let id = self.number(&file);
        let lines = KnownText::empty(self.alloc);
        self.put(id, Some(lines));
        one_turned(id, Turned::Appeared)
    }

    fn restore(&mut self, file: FileId, lines: Lines) -> Change
        requires apt { AreKnown self.old.known (file ∷ []) }
        requires fits { refusal_of self.old.max_weight self.old.known (Edit.Restore file lines) ≡ None }
        ensures known { self.new.known ≡ edited self.old.known (Edit.Restore file lines) }
        ensures max_files { self.new.max_files ≡ self.old.max_files }
        ensures max_weight { self.new.max_weight ≡ self.old.max_weight }
        ensures change { turned self.old.known file Appeared ≡ Some result }
    {
        let _ = &self.alloc;
        let id = self.number(&file);
        let weight = weigh(lines.as_slice());
        let text = KnownText::new(file.folder, lines, weight);
        self.put(id, Some(text));
        one_turned(id, Turned::Appeared)
    }

    fn drop_file(&mut self, file: FileId) -> Change
        requires { AreKnown self.old.known (file ∷ []) }
        ensures known { self.new.known ≡ edited self.old.known (Edit.Drop file) }
        ensures max_files { self.new.max_files ≡ self.old.max_files }
        ensures max_weight { self.new.max_weight ≡ self.old.max_weight }
        ensures change { turned self.old.known file Went ≡ Some result }
    {
        let _ = &self.alloc;
        let id = self.number(&file);
        let _ = self.take(id);
        one_turned(id, Turned::Went)
    }

    fn move_file(&mut self, from: FileId, to: FileId) -> Change
        requires apt { AreKnown self.old.known (from ∷ to ∷ []) }
        requires fits { refusal_of self.old.max_weight self.old.known (Edit.Move from to) ≡ None }
        ensures known { self.new.known ≡ edited self.old.known (Edit.Move from to) }
        ensures max_files { self.new.max_files ≡ self.old.max_files }
        ensures max_weight { self.new.max_weight ≡ self.old.max_weight }
        ensures change { move_change (id_of self.old.known from) (id_of self.old.known to) ≡ Some result }
    {
        let _ = &self.alloc;
        let source = self.number(&from);
        let target = self.number(&to);
        let lines = self.take(source).unwrap();
        self.put(target, Some(lines.moved(to.folder)));
        Change {
            first: (source, Turned::Went),
            second: Some((target, Turned::Appeared)),
        }
    }

    fn number(&self, file: &FileId) -> TextId
        requires { IsSome (id_of self.now.known file.now) }
        ensures number { id_of self.now.known file.now ≡ Some result.0 }
        ensures within { result.0 < length self.now.known }
    {
        self.id(file).unwrap()
    }

    // Takes the text of a file, which is absent then.
    fn take(&mut self, id: TextId) -> Option<KnownText>
        requires { id.0 < length self.old.known }
        ensures text { result ≡ lines_at self.old.known id.0 }
        ensures known { self.new.known ≡ with_text_at self.old.known id.0 None }
        ensures count { length self.new.known ≡ length self.old.known }
        ensures absent { lines_at self.new.known id.0 ≡ None }
        ensures max_files { self.new.max_files ≡ self.old.max_files }
        ensures max_weight { self.new.max_weight ≡ self.old.max_weight }
    {
        let text = mem::replace(&mut self.files[id.0 as usize].1, None);
        self.weight -= weigh_text(&text);
        text
    }

    // Gives an absent file a text.
    fn put(&mut self, id: TextId, text: Option<KnownText>)
        requires within { id.0 < length self.old.known }
        requires absent { lines_at self.old.known id.0 ≡ None }
        requires fits { weight_of (with_text_at self.old.known id.0 text) ≤ self.old.max_weight }
        ensures known { self.new.known ≡ with_text_at self.old.known id.0 text }
        ensures max_files { self.new.max_files ≡ self.old.max_files }
        ensures max_weight { self.new.max_weight ≡ self.old.max_weight }
    {
        self.weight += weigh_text(&text);
        self.files[id.0 as usize].1 = text;
    }
}

fn one_turned(id: TextId, turned: Turned) -> Change
    ensures { result ≡ record { first = (id, turned); second = None } }
{
    Change {
        first: (id, turned),
        second: None,
    }
}
