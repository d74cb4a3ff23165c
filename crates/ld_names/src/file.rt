ghost use Rattle.std.specs.Prelude.{◌≡◌, ◌≤◌, ◌-◌, IfOk, drop, length, replicate, take};
ghost use Rattle.ld_names.specs.Standing.{folders_of};

use crate::name::Name;
use std::alloc::{AllocError, Global};

/// Where a known file lies: in an open document, by its number from 1 to 16, or in the library's
/// folders `parts` and `p`.
#[derive(Clone, Copy, Debug, PartialEq, Eq, PartialOrd, Ord, Hash)]
pub enum Folder {
    Model(u8),
    Parts,
    P,
}

/// A file by its folder and its name. Files are ordered by folder, then by the bytes of the name.
#[derive(Debug, Drop, PartialEq, Eq, PartialOrd, Ord, Hash)]
pub struct FileId {
    pub folder: Folder,
    pub name: Name,
}

impl FileId {
    /// An equal file.
    pub fn copy(&self, alloc: Global) -> Result<FileId, AllocError>
        ensures { IfOk result (λ file. file ≡ self.now) }
    {
        Ok(FileId {
            folder: self.folder,
            name: self.name.copy(alloc)?,
        })
    }
}

/// The number of a known file, in the order in which files became known.
#[derive(Clone, Copy, Debug, Default, PartialEq, Eq, PartialOrd, Ord, Hash)]
pub struct TextId(pub u32);

/// Folders in the order in which a file is looked for: the first `count` of the list.
#[derive(Clone, Copy, Debug, PartialEq, Eq)]
pub struct Folders {
    pub count: u8,
    pub list: [Folder; 3],
}

/// The folders in which a file that a file of this folder refers to is looked for. What stands
/// behind the last one is `P`.
#[tactic(auto, unfolding(crate::specs::Standing::folders_of))]
pub fn order(from: Folder) -> Folders
    ensures within { result.count ≤ 3 }
    ensures count { result.count ≡ length (folders_of from) }
    ensures folders { take result.count result.list ≡ folders_of from }
    ensures behind { drop result.count result.list ≡ replicate (3 - result.count) Folder.P }
{
    match from {
        Folder::Model(_) => Folders {
            count: 3,
            list: [from, Folder::Parts, Folder::P],
        },
        Folder::Parts | Folder::P => Folders {
            count: 2,
            list: [Folder::Parts, Folder::P, Folder::P],
        },
    }
}
