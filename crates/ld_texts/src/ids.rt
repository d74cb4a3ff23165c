ghost use Rattle.std.specs.Prelude.{◌≡◌, [], ◌∷◌, ◌++◌, IfOk, OnOk, true};
ghost use Rattle.ld_texts.specs.Inside.Found.{has_room, id_in};

use ld_names::Folder;
use std::alloc::{AllocError, Global};

// The numbers of the known files of one name, which differ in their folders.
#[derive(Drop)]
pub(crate) struct Ids {
    numbers: Vec<(Folder, u32)>,
}

impl Ids {
    // No number, with room for one.
    pub(crate) fn new(alloc: Global) -> Result<Ids, AllocError>
        ensures numbers { IfOk result (λ ids. ids.numbers.items ≡ []) }
        ensures room { IfOk result (λ ids. has_room ids ≡ true) }
    {
        let mut numbers = Vec::new(alloc);
        numbers.reserve(1)?;
        Ok(Ids { numbers })
    }

    pub(crate) fn at(&self, folder: Folder) -> Option<u32>
        ensures { result ≡ id_in folder self.now }
    {
        let mut rest = self.numbers.as_slice();
        while let [(other, id), more @ ..] = rest {
            if folder == *other {
                return Some(*id);
            }
            rest = more;
        }
        None
    }

    // Takes the memory for one more number.
    pub(crate) fn reserve(&mut self) -> Result<(), AllocError>
        ensures numbers { self.new.numbers.items ≡ self.old.numbers.items }
        ensures room { OnOk result (has_room self.new ≡ true) }
        ensures kept { has_room self.old ≡ true → has_room self.new ≡ true }
    {
        self.numbers.reserve(1)?;
        Ok(())
    }

    // Adds the number of the file in a folder that has none yet.
    pub(crate) fn add(&mut self, folder: Folder, id: u32)
        requires { has_room self.old ≡ true }
        ensures { self.new.numbers.items ≡ self.old.numbers.items ++ (folder, id) ∷ [] }
    {
        self.numbers.push((folder, id)).unwrap();
    }
}
