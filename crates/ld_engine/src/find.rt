// Which file a reference finds among the known texts.
ghost use Rattle.std.specs.Prelude.{◌≡◌, None};
ghost use Rattle.ld_engine.specs.Found.{sought, sought_in};

use ld_names::{Folder, Name, TextId, order};
use ld_texts::Texts;

/// What a name in a file comes to.
#[derive(Clone, Copy)]
pub(crate) enum Sought {
    Text(TextId),
    Absent,
    Unknown(Folder),
}

// What a name in a file of the folder finds.
pub(crate) fn seek(texts: &Texts, from: Folder, name: &Name) -> Sought
    ensures { result ≡ sought texts.now.known from name.now }
{
    let folders = order(from);
    let mut rest = &folders.list[..folders.count as usize];
    while let Some((folder, more)) = rest.split_first() {
        if let Some(sought) = seek_in(texts, *folder, name) {
            return sought;
        }
        rest = more;
    }
    Sought::Absent
}

// What the name finds in one folder; nothing where the file is known to be absent there.
fn seek_in(texts: &Texts, folder: Folder, name: &Name) -> Option<Sought>
    ensures { result ≡ sought_in texts.now.known folder name.now }
{
    let Some(id) = texts.at(folder, name) else {
        return Some(Sought::Unknown(folder));
    };
    if texts.present(id) {
        Some(Sought::Text(id))
    } else {
        None
    }
}
