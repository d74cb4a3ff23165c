ghost use Rattle.std.specs.Prelude.{◌≡◌, ◌<◌, ◌≤◌, ◌^◌, [], IfOk, IfSome, IsSome, OnOk, Some, None, length, option_map, true};
ghost use Rattle.std.specs.Option.{is_some, option_copied};
ghost use Rattle.ld_texts.specs.Known.{AreDistinct, file_at, id_of, is_part_at, line_at, lines_at, moved_at, weight_of};
ghost use Rattle.ld_texts.specs.Learning.{CanCommit, KeepsTexts, Learn, LearnsAt, GivesUnless, change_of, has_place, known_after, limit_passed, weight_passed};
ghost use Rattle.ld_names.specs.declared.file.FileId.{FileId};

use crate::change::{Change, LearnError, Over, Turned};
use crate::ids::Ids;
use crate::ready::{Prepared, Ready};
use crate::text::{KnownText, weigh, weigh_text};
use ld_names::{Bytes, FileId, Folder, Lines, Name, TextId, file_laws};
use std::alloc::{AllocError, Global};
use std::collections::BTreeMap;
use std::marker::Model;

/// The known files in the order in which they became known, each with its lines or known to be
/// absent. A file's number is its place in this order.
#[derive(Drop)]
pub struct Texts {
    pub(crate) alloc: Global,
    pub(crate) files: Vec<(FileId, Option<KnownText>)>,
    // By name; there is room here for a file's number before it is learnt. Ordered, since whoever writes
    // the files picks their names.
    pub(crate) ids: BTreeMap<Name, Ids>,
    pub(crate) max_files: u32,
    pub(crate) max_weight: u64,
    pub(crate) weight: u64,
}

impl Model for Texts {
    ghost use Rattle.ld_texts.specs.Learning.{Texts};
    ghost use Rattle.std.specs.Prelude.{◌-◌, length};
    ghost use Rattle.std.specs.Vec.{vec_capacity};
    ghost use Rattle.ld_texts.specs.Inside.Found.{IsIndex, places_of};
    ghost use Rattle.ld_texts.specs.Inside.Kept.{IsWithin};

    ghost Value = { Texts };

    ghost view = { λ texts. record { known = texts.files.items; max_files = texts.max_files; max_weight = texts.max_weight; room = vec_capacity texts.files - length texts.files.items; places = places_of texts.ids.entries } };

    ghost invariant = { λ texts. IsWithin texts.files.items texts.weight texts.max_files texts.max_weight × IsIndex texts.files.items texts.ids.entries };
}

impl Texts {
    /// Texts of which nothing is known, for at most so many files, whose texts weigh at most so much.
    #[tactic(auto, unfolding(crate::specs::Known::id_of))]
    pub fn new(alloc: Global, max_files: u32, max_weight: u64) -> Texts
        requires { max_weight < 2 ^ 37 }
        ensures nothing_known { result.known ≡ [] }
        ensures no_file { (file : FileId) → id_of result.known file ≡ None }
        ensures max_files { result.max_files ≡ max_files }
        ensures max_weight { result.max_weight ≡ max_weight }
    {
        Texts {
            alloc,
            files: Vec::new(alloc),
            ids: BTreeMap::new(alloc),
            max_files,
            max_weight,
            weight: 0,
        }
    }

    /// The number of a known file.
    pub fn id(&self, file: &FileId) -> Option<TextId>
        ensures { option_map (λ id. id.0) result ≡ id_of self.now.known file.now }
    {
        self.at(file.folder, &file.name)
    }

    /// The number of the known file with this folder and name.
    pub fn at(&self, folder: Folder, name: &Name) -> Option<TextId>
        ensures { option_map (λ id. id.0) result ≡ id_of self.now.known (record { folder = folder; name = name.now }) }
    {
        let id = self.ids.get(name)?.at(folder)?;
        Some(TextId(id))
    }

    /// The file with this number.
    #[tactic(auto, unfolding(crate::specs::Known::file_at))]
    pub fn file(&self, id: TextId) -> Option<&FileId>
        ensures { option_copied result ≡ file_at self.now.known id.0 }
    {
        let (file, _) = self.files.get(id.0 as usize)?;
        Some(file)
    }

    /// Whether the file with this number is known and present.
    pub fn present(&self, id: TextId) -> bool
        ensures { result ≡ is_some (lines_at self.now.known id.0) }
    {
        self.text(id).is_some()
    }

    /// How many lines the text of a present file has.
    pub fn len(&self, id: TextId) -> Option<u32>
        ensures { result ≡ option_map length (lines_at self.now.known id.0) }
    {
        let text = self.text(id)?;
        Some(text.lines().len() as u32)
    }

    /// A line of a present file. Lines are numbered from 1.
    pub fn line(&self, id: TextId, line: u32) -> Option<&[u8]>
        ensures { option_copied result ≡ line_at self.now.known id.0 line }
    {
        self.text(id)?.line(line)
    }

    /// The lines of a present file.
    pub fn lines(&self, id: TextId) -> Option<&[Bytes]>
        ensures { option_copied result ≡ lines_at self.now.known id.0 }
    {
        Some(self.text(id)?.lines())
    }

    /// Whether the file is present and its text is a part text: it lies in the library, or its first
    /// `!LDRAW_ORG` line names the type of a part (Official Library Header Specification).
    #[tactic(auto, unfolding(crate::specs::Known::is_part_at))]
    pub fn is_part(&self, id: TextId) -> bool
        ensures { result ≡ is_part_at self.now.known id.0 }
    {
        match self.files.get(id.0 as usize) {
            Some((file, Some(text))) => text.is_part(file.folder),
            _ => false,
        }
    }

    /// The number of the one reference of a present file whose text is a moved text, which only says
    /// where a part moved to: a part text whose first line begins with `0 ~Moved to`, with no other
    /// reference and no line that draws. `None` for every other file.
    pub fn moved(&self, id: TextId) -> Option<u32>
        ensures { result ≡ moved_at self.now.known id.0 }
    {
        let file = self.file(id)?;
        let text = self.text(id)?;
        text.moved_line(file.folder)
    }

    /// How many files are known.
    pub fn known(&self) -> u32
        ensures count { result ≡ length self.now.known }
        ensures within { result ≤ self.now.max_files }
        ensures distinct { AreDistinct self.now.known }
    {
        self.files.len() as u32
    }

    /// The weight of all present texts: the bytes of their lines, and 32 more for each line.
    pub fn weight(&self) -> u64
        ensures weight { result ≡ weight_of self.now.known }
        ensures within { result ≤ self.now.max_weight }
    {
        self.weight
    }

    /// Takes the memory that is needed to learn a file with its lines, or as absent. Where a limit would
    /// be passed, all stays as it was.
    pub fn prepare_file(&mut self, file: &FileId, lines: Option<Lines>) -> Result<Ready, LearnError>
        requires { id_of self.old.known file.now ≡ None }
        ensures result { GivesUnless (limit_passed self.old.max_files self.old.max_weight self.old.known lines) (Learn file.now lines) result }
        ensures ready { IfOk result (CanCommit self.new) }
        ensures same { KeepsTexts self.old self.new }
        ensures refused { IsSome (limit_passed self.old.max_files self.old.max_weight self.old.known lines) → self.new ≡ self.old }
    {
        if self.known() == self.max_files {
            return Err(LearnError::Full(Over::Files(self.max_files)));
        }
        let text = self.measured(file.folder, lines)?;
        self.files.reserve(1)?;
        self.give_place(&file.name)?;
        let file = file.copy(self.alloc)?;
        Ok(Ready {
            prepared: Prepared::File { file, text },
        })
    }

    // The lines as a text, where the limit on the weight is not passed.
    fn measured(
        &self,
        folder: Folder,
        lines: Option<Lines>,
    ) -> Result<Option<KnownText>, LearnError>
        ensures { GivesUnless (weight_passed self.now.max_weight self.now.known lines) lines result }
    {
        let left = self.max_weight - self.weight;
        let Some(lines) = lines else {
            return Ok(None);
        };
        let weight = weigh(lines.as_slice());
        if weight > left {
            return Err(LearnError::Full(Over::Weight(self.weight)));
        }
        Ok(Some(KnownText::new(folder, lines, weight)))
    }

    // Gives the name a place for the number of one more file.
    fn give_place(&mut self, name: &Name) -> Result<(), AllocError>
        ensures place { OnOk result (has_place self.new name.now ≡ true) }
        ensures same { KeepsTexts self.old self.new }
    {
        if let Some(ids) = self.ids.get_mut(name) {
            return ids.reserve();
        }
        self.ids
            .insert(name.copy(self.alloc)?, Ids::new(self.alloc)?)?;
        Ok(())
    }

    /// Makes a change that is ready. It takes no memory.
    pub fn commit(&mut self, ready: Ready) -> Change
        requires { CanCommit self.old ready }
        ensures known { self.new.known ≡ known_after self.old.known ready }
        ensures max_files { self.new.max_files ≡ self.old.max_files }
        ensures max_weight { self.new.max_weight ≡ self.old.max_weight }
        ensures change { change_of self.new.known ready ≡ Some result }
        ensures learnt { LearnsAt self.old.known self.new.known ready result.first.0.0 }
    {
        match ready.prepared {
            Prepared::File { file, text } => self.learn(file, text),
            Prepared::Edit { edit, room } => self.change(edit, room),
        }
    }

    fn learn(&mut self, file: FileId, text: Option<KnownText>) -> Change
        requires { CanCommit self.old (Learn file text) }
        ensures known { self.new.known ≡ known_after self.old.known (Learn file text) }
        ensures max_files { self.new.max_files ≡ self.old.max_files }
        ensures max_weight { self.new.max_weight ≡ self.old.max_weight }
        ensures change { change_of self.new.known (Learn file text) ≡ Some result }
        ensures learnt { LearnsAt self.old.known self.new.known (Learn file text) result.first.0.0 }
    {
        file_laws();
        let id = self.known();
        self.weight += weigh_text(&text);
        let ids = self.ids.get_mut(&file.name).unwrap();
        ids.add(file.folder, id);
        self.files.push((file, text)).unwrap();
        Change {
            first: (TextId(id), Turned::Learnt),
            second: None,
        }
    }

    #[tactic(auto, unfolding(crate::specs::Known::lines_at))]
    pub(crate) fn text(&self, id: TextId) -> Option<&KnownText>
        ensures lines { option_copied result ≡ lines_at self.now.known id.0 }
        ensures small { IfSome result (λ text. length text.now < 2 ^ 32) }
    {
        self.files.get(id.0 as usize)?.1.as_ref()
    }
}
