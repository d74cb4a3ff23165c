ghost use Rattle.std.specs.Prelude.{◌≡◌, ◌≤◌, length, option_map};
ghost use Rattle.std.specs.Option.{is_some, option_copied};
ghost use Rattle.ld_graph.specs.Reading.{reads_after};
ghost use Rattle.ld_texts.specs.Known.{AreDistinct, file_at, id_of, is_part_at, line_at, lines_at, moved_at};

use ld_names::{FileId, Folder, Name, TextId};
use ld_texts::Texts;
use std::marker::Model;

/// Reads the lines of texts, and counts those that it answers. It is the only way to a line for
/// whoever is lent one.
#[derive(Drop)]
pub struct Reader<'a> {
    texts: &'a Texts,
    reads: u64,
}

impl<'a> Model for Reader<'a> {
    ghost use Rattle.ld_graph.specs.Reading.{Reading};

    ghost Value = { Reading };

    ghost view = { λ reader. record { texts = reader.texts.now; reads = reader.reads } };
}

impl<'a> Reader<'a> {
    /// A reader of these texts that has read nothing.
    pub fn new(texts: &'a Texts) -> Reader<'a>
        ensures texts { result.texts ≡ texts.now }
        ensures reads { result.reads ≡ 0 }
    {
        Reader { texts, reads: 0 }
    }

    /// A line of a present file. Lines are numbered from 1. The count rises by one where the line is
    /// there, up to its last value.
    pub fn line(&mut self, id: TextId, line: u32) -> Option<&'a [u8]>
        ensures line { option_copied result ≡ line_at self.old.texts.known id.0 line }
        ensures reads { self.new.reads ≡ reads_after self.old.reads (option_copied result) }
        ensures texts { self.new.texts ≡ self.old.texts }
    {
        let found = self.texts.line(id, line)?;
        self.reads = self.reads.saturating_add(1);
        Some(found)
    }

    /// How many lines it has answered; 2^64 - 1 where they are more.
    pub fn reads(&self) -> u64
        ensures { result ≡ self.now.reads }
    {
        self.reads
    }

    /// The number of the known file with this folder and name.
    pub fn at(&self, folder: Folder, name: &Name) -> Option<TextId>
        ensures { option_map (λ id. id.0) result ≡ id_of self.now.texts.known (record { folder = folder; name = name.now }) }
    {
        self.texts.at(folder, name)
    }

    /// The file with this number.
    pub fn file(&self, id: TextId) -> Option<&FileId>
        ensures { option_copied result ≡ file_at self.now.texts.known id.0 }
    {
        self.texts.file(id)
    }

    /// Whether the file with this number is known and present.
    pub fn present(&self, id: TextId) -> bool
        ensures { result ≡ is_some (lines_at self.now.texts.known id.0) }
    {
        self.texts.present(id)
    }

    /// How many lines the text of a present file has.
    pub fn len(&self, id: TextId) -> Option<u32>
        ensures { result ≡ option_map length (lines_at self.now.texts.known id.0) }
    {
        self.texts.len(id)
    }

    /// Whether the file is present and its text is a part text.
    pub fn is_part(&self, id: TextId) -> bool
        ensures { result ≡ is_part_at self.now.texts.known id.0 }
    {
        self.texts.is_part(id)
    }

    /// How many files are known.
    pub fn known(&self) -> u32
        ensures count { result ≡ length self.now.texts.known }
        ensures within { result ≤ self.now.texts.max_files }
        ensures distinct { AreDistinct self.now.texts.known }
    {
        self.texts.known()
    }

    /// The number of the one reference of a present file whose text is a moved text; `None` for every
    /// other file. It doesn't count as a read.
    pub fn moved(&self, id: TextId) -> Option<u32>
        ensures { result ≡ moved_at self.now.texts.known id.0 }
    {
        self.texts.moved(id)
    }
}
