ghost use Rattle.std.specs.Prelude.{◌≡◌};
ghost use Rattle.ld_names.specs.Finding.{DocumentsApart, FindStays, FindsExactly, IsFileEquality, LearningAdds, LearningKeeps, LearningStays, NothingUnknown};
ghost use Rattle.ld_names.specs.Normal.{AreNames};
ghost use Rattle.ld_names.specs.Standing.{file_cmp, same_file};
ghost use Rattle.ld_names.specs.declared.file.FileId.{FileId};

use crate::file::FileId;

/// What `==` and the order of files mean, and that files are the same exactly where they are equal.
#[tactic(auto, unfolding(crate::specs::Standing::same_file, crate::specs::Standing::file_cmp))]
pub fn file_laws()
    ensures equal { (file other : FileId) → ⟦<FileId as PartialEq>⟧.eq file other ≡ same_file file other }
    ensures order { (file other : FileId) → ⟦<FileId as Ord>⟧.cmp file other ≡ file_cmp file other }
    ensures same { IsFileEquality }
{}

/// What a look-up finds, each document's files for itself; over the standing texts a name is found
/// or absent.
pub fn lookup_law()
    ensures finds { FindsExactly }
    ensures stays { FindStays }
    ensures documents { DocumentsApart }
    ensures standing { NothingUnknown }
{}

/// Learning a file adds what is known of it, keeps what was known, and leaves the texts as they
/// stand.
pub fn known_law()
    ensures adds { LearningAdds }
    ensures keeps { LearningKeeps }
    ensures stays { LearningStays }
{}

/// What a text is that is a name.
pub fn name_law()
    ensures { AreNames }
{}
