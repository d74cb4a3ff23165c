ghost use Rattle.std.specs.Prelude.{◌≡◌, ◌↔◌, ◌⊎◌, ◌++◌, ◌∷◌, ◌<◌, ◌-◌, [], ℕ, IfOk, OnOk, true, Some, length, slice_get};
ghost use Rattle.std.specs.List.{Contains};
ghost use Rattle.ld_names.specs.Standing.{folders_of};
ghost use Rattle.ld_graph.specs.Items.{first_present};
ghost use Rattle.ld_graph.specs.Inside.Linking.{is_there};
ghost use Rattle.ld_graph.specs.Inside.Nodes.{CanAdd, has_space, has_spare, number_in};

use ld_names::{Folder, Name, order};
use std::alloc::{AllocError, Global};

// A name: the numbers of the files that have it, by their folders, and the texts that refer by it.
#[derive(Drop)]
pub(crate) struct Node {
    pub(crate) name: Name,
    pub(crate) numbers: Vec<(Folder, u32)>,
    pub(crate) users: Vec<u32>,
}

// A text: the folder of its file, the key of the file's name, and the keys of the names of its
// references, in order; `None` of an absent one.
#[derive(Drop)]
pub(crate) struct Text {
    pub(crate) folder: Folder,
    pub(crate) name: usize,
    pub(crate) names: Option<Vec<usize>>,
}

impl Node {
    // The node of a name that no text uses.
    pub(crate) fn new(alloc: Global, name: &Name) -> Result<Node, AllocError>
        ensures name { IfOk result (λ node. node.name ≡ name.now) }
        ensures numbers { IfOk result (λ node. node.numbers.items ≡ []) }
        ensures users { IfOk result (λ node. node.users.items ≡ []) }
        ensures spare { IfOk result (λ node. has_spare node ≡ true) }
        ensures space { IfOk result (λ node. has_space node ≡ true) }
    {
        let mut numbers = Vec::new(alloc);
        numbers.reserve(1)?;
        let mut users = Vec::new(alloc);
        users.reserve(1)?;
        Ok(Node {
            name: name.copy(alloc)?,
            numbers,
            users,
        })
    }

    // Takes the memory for one more number and one more user.
    pub(crate) fn reserve(&mut self) -> Result<(), AllocError>
        ensures name { self.new.name ≡ self.old.name }
        ensures numbers { self.new.numbers.items ≡ self.old.numbers.items }
        ensures users { self.new.users.items ≡ self.old.users.items }
        ensures keeps_spare { has_spare self.old ≡ true → has_spare self.new ≡ true }
        ensures keeps_space { has_space self.old ≡ true → has_space self.new ≡ true }
        ensures spare { OnOk result (has_spare self.new ≡ true) }
        ensures space { OnOk result (has_space self.new ≡ true) }
    {
        self.numbers.reserve(1)?;
        self.users.reserve(1)?;
        Ok(())
    }

    // The number of the file in a folder.
    fn number(&self, folder: Folder) -> Option<u32>
        ensures { result ≡ number_in self.now.numbers.items folder }
    {
        let mut rest = self.numbers.as_slice();
        while let [(other, text), more @ ..] = rest {
            if folder == *other {
                return Some(*text);
            }
            rest = more;
        }
        None
    }

    // The present text that a file of the folder finds by the name.
    pub(crate) fn found(&self, texts: &[Text], from: Folder) -> Option<u32>
        ensures { result ≡ first_present (number_in self.now.numbers.items) (is_there texts.now) (folders_of from) }
    {
        let folders = order(from);
        let mut rest = &folders.list[..folders.count as usize];
        while let Some((folder, more)) = rest.split_first() {
            let Some(text) = self.number(*folder) else {
                return None;
            };
            let Some(known) = texts.get(text as usize) else {
                return None;
            };
            if known.names.is_some() {
                return Some(text);
            }
            rest = more;
        }
        None
    }

    // Gives the name a file in a further folder.
    pub(crate) fn add_number(&mut self, folder: Folder, text: u32)
        requires { has_space self.old ≡ true }
        ensures name { self.new.name ≡ self.old.name }
        ensures numbers { self.new.numbers.items ≡ self.old.numbers.items ++ (folder, text) ∷ [] }
        ensures users { self.new.users ≡ self.old.users }
    {
        self.numbers.push((folder, text)).unwrap();
    }

    // Adds a user, unless it is the last that was added.
    pub(crate) fn add_user(&mut self, text: u32)
        requires { CanAdd self.old text }
        ensures name { self.new.name ≡ self.old.name }
        ensures numbers { self.new.numbers ≡ self.old.numbers }
        ensures users { (user : ℕ) → Contains self.new.users.items user ↔ (Contains self.old.users.items user ⊎ (user ≡ text)) }
        ensures room { CanAdd self.new text }
    {
        if !is_last(&self.users, text) {
            self.users.push(text).unwrap();
        }
    }

    pub(crate) fn remove_user(&mut self, text: u32)
        ensures name { self.new.name ≡ self.old.name }
        ensures numbers { self.new.numbers ≡ self.old.numbers }
        ensures users { (user : ℕ) → Contains self.new.users.items user ↔ Contains self.old.users.items user × ((user ≡ text) → ⊥) }
        ensures spare { has_spare self.old ≡ true → has_spare self.new ≡ true }
    {
        self.users.retain(|user| *user != text);
    }
}

fn is_last(users: &[u32], text: u32) -> bool
    ensures { (result ≡ true) ↔ (slice_get users.now (length users.now - 1) ≡ Some text) }
{
    match users.last() {
        Some(last) => *last == text,
        None => false,
    }
}

// Whether a file of the first folder looks for others in the second.
pub(crate) fn looks_in(from: Folder, folder: Folder) -> bool
    ensures { (result ≡ true) ↔ Contains (folders_of from) folder }
{
    let folders = order(from);
    let mut rest = &folders.list[..folders.count as usize];
    while let Some((other, more)) = rest.split_first() {
        if *other == folder {
            return true;
        }
        rest = more;
    }
    false
}
