ghost use Rattle.std.specs.Prelude.{◌≡◌};
ghost use Rattle.ld_names.specs.Standing.{find, known_map};
ghost use Rattle.ld_texts.specs.Known.{file_at};
ghost use Rattle.ld_graph.specs.Resolving.{resolved, resolved_from};

use crate::reader::Reader;
use ld_names::{Folder, Name, TextId, order};
use ld_texts::number_law;

/// What a name in a file comes to among the known texts.
#[derive(Clone, Copy, Debug, PartialEq, Eq)]
pub enum Resolved {
    /// The first file in the order of folders that is present.
    Text(TextId),
    /// Every folder is known to lack the file.
    Absent,
    /// Of the file in this folder nothing is known, and no folder before it has the file.
    Unknown(Folder),
}

/// What the name comes to in a known file, by the folders in which its references are looked for.
pub fn resolve(reader: &Reader<'_>, from: TextId, name: &Name) -> Resolved
    ensures { result ≡ resolved_from reader.now.texts.known name.now (file_at reader.now.texts.known from.0) }
{
    match reader.file(from) {
        Some(file) => resolve_in(reader, file.folder, name),
        None => Resolved::Absent,
    }
}

// What the name comes to in a file of this folder.
#[tactic(auto, unfolding(ld_names::specs::Standing::find))]
fn resolve_in(reader: &Reader<'_>, from: Folder, name: &Name) -> Resolved
    ensures { result ≡ resolved reader.now.texts.known (find (known_map reader.now.texts.known) from name.now) }
{
    number_law();
    let folders = order(from);
    let mut rest = &folders.list[..folders.count as usize];
    while let Some((folder, more)) = rest.split_first() {
        let Some(id) = reader.at(*folder, name) else {
            return Resolved::Unknown(*folder);
        };
        if reader.present(id) {
            return Resolved::Text(id);
        }
        rest = more;
    }
    Resolved::Absent
}
