// Changes of the names of texts.
ghost use Rattle.std.specs.Prelude.{◌≡◌, ◌≤◌, ◌<◌, ◌++◌, ◌∷◌, ◌^◌, ℕ, IfSome, List, None, OnOk, Some, [], false, true, length, option_map, unwrap_or};
ghost use Rattle.std.specs.List.{All};
ghost use Rattle.std.specs.Option.{is_some, option_map_or};
ghost use Rattle.std.specs.Vec.{vec_capacity};
ghost use Rattle.ld_graph.specs.Inside.Linking.{HaveSpares, KeepsLinks, has_place, has_spare as has_spare_for, names_listed};
ghost use Rattle.ld_graph.specs.Inside.Nodes.{AreKeysOf, CanAddAt, CanLearn, Forgets, Learns};
ghost use Rattle.ld_graph.specs.Items.{names_at, number_of, with_names_at};
ghost use Rattle.ld_graph.specs.Seen.{items_without};

use crate::links::Links;
use crate::node::{Node, Text};
use ld_names::{FileId, Name, TextId};
use slab::Slab;
use std::alloc::{AllocError, Global};
use std::collections::BTreeMap;
use std::mem;

impl Links {
    // Gives each of the names that there may be a place.
    pub(crate) fn keep_listed(
        &mut self,
        alloc: Global,
        names: &Option<Vec<Name>>,
    ) -> Result<(), AllocError>
        ensures same { KeepsLinks self.old self.new }
        ensures spares { OnOk result (HaveSpares self.new (names_listed names.now)) }
    {
        match names {
            Some(names) => self.keep_each(alloc, names),
            None => Ok(()),
        }
    }

    fn keep_each(&mut self, alloc: Global, names: &[Name]) -> Result<(), AllocError>
        ensures same { KeepsLinks self.old self.new }
        ensures spares { OnOk result (HaveSpares self.new names.now) }
    {
        for name in names {
            self.keep(alloc, name)?;
        }
        Ok(())
    }

    // Adds a file that is not known, as absent.
    pub(crate) fn add(&mut self, file: FileId)
        requires room { 0 < self.old.room }
        requires place { has_place self.old file.name ≡ true }
        requires unknown { number_of self.old.items file ≡ None }
        requires few { length self.old.items < 2 ^ 32 }
        ensures items { self.new.items ≡ self.old.items ++ (file, None) ∷ [] }
        ensures spares { (name : List ℕ) → has_spare_for self.old name ≡ true → has_spare_for self.new name ≡ true }
    {
        let text = self.texts.len() as u32;
        let key = *self.keys.get(&file.name).unwrap();
        self.nodes
            .get_mut(key)
            .unwrap()
            .add_number(file.folder, text);
        self.texts
            .push(Text {
                folder: file.folder,
                name: key,
                names: None,
            })
            .unwrap();
    }

    // Makes a text absent.
    pub(crate) fn take_names(&mut self, text: u32)
        requires { text < length self.old.items }
        ensures items { self.new.items ≡ with_names_at self.old.items text None }
        ensures spares { (name : List ℕ) → has_spare_for self.old name ≡ true → has_spare_for self.new name ≡ true }
    {
        let names = mem::replace(&mut self.texts[text as usize].names, None);
        forget_listed(&mut self.nodes, &names, text);
    }

    // Makes a text absent that there may be, and answers whether it was present.
    pub(crate) fn drop_listed(&mut self, text: Option<TextId>) -> bool
        requires { IfSome text (λ text. text.0 < length self.old.items) }
        ensures went { result ≡ option_map_or (λ text. is_some (names_at self.old.items text.0)) text false }
        ensures items { self.new.items ≡ items_without self.old.items (option_map (λ text. text.0) text) }
        ensures spares { (name : List ℕ) → has_spare_for self.old name ≡ true → has_spare_for self.new name ≡ true }
    {
        let Some(text) = text else {
            return false;
        };
        let went = self.present(text.0);
        self.take_names(text.0);
        went
    }

    // Gives an absent text names, whose keys go into the given memory.
    pub(crate) fn give_names(&mut self, text: u32, names: &[Name], room: Vec<usize>)
        requires text { text < length self.old.items }
        requires absent { names_at self.old.items text ≡ None }
        requires spares { HaveSpares self.old names.now }
        requires empty { room.items ≡ [] }
        requires room { length names.now ≤ vec_capacity room }
        ensures { self.new.items ≡ with_names_at self.old.items text (Some names.now) }
    {
        let keys = learn_names(&mut self.nodes, &self.keys, names, text, room);
        self.texts[text as usize].names = Some(keys);
    }

    // Gives an absent text the names that there may be, whose keys go into the given memory.
    pub(crate) fn give_listed(&mut self, text: u32, names: &Option<Vec<Name>>, room: Vec<usize>)
        requires text { text < length self.old.items }
        requires absent { names_at self.old.items text ≡ None }
        requires spares { HaveSpares self.old (names_listed names.now) }
        requires empty { room.items ≡ [] }
        requires room { length (names_listed names.now) ≤ vec_capacity room }
        ensures { self.new.items ≡ with_names_at self.old.items text (option_map (λ names. names.items) names.now) }
    {
        if let Some(names) = names {
            self.give_names(text, names, room);
        }
    }
}

// A text refers by a name no longer.
fn forget_name(nodes: &mut Slab<Node>, key: usize, text: u32)
    ensures { Forgets nodes.old nodes.new (key ∷ []) text }
{
    if let Some(node) = nodes.get_mut(key) {
        node.remove_user(text);
    }
}

fn forget_names(nodes: &mut Slab<Node>, keys: &[usize], text: u32)
    ensures { Forgets nodes.old nodes.new keys.now text }
{
    for key in keys {
        forget_name(nodes, *key, text);
    }
}

// A text refers by the names that it may have no longer.
fn forget_listed(nodes: &mut Slab<Node>, keys: &Option<Vec<usize>>, text: u32)
    ensures { Forgets nodes.old nodes.new (unwrap_or (option_map (λ keys. keys.items) keys.now) []) text }
{
    if let Some(keys) = keys {
        forget_names(nodes, keys, text);
    }
}

// A text refers by a further name.
fn learn_name(nodes: &mut Slab<Node>, key: usize, text: u32)
    requires { CanAddAt nodes.old text key }
    ensures { Learns nodes.old nodes.new (key ∷ []) text }
{
    nodes.get_mut(key).unwrap().add_user(text);
}

// A text refers by further names. Their keys go into the given memory.
fn learn_names(
    nodes: &mut Slab<Node>,
    keys: &BTreeMap<Name, usize>,
    names: &[Name],
    text: u32,
    room: Vec<usize>,
) -> Vec<usize>
    requires names { All (CanLearn nodes.old keys.now.entries text) names.now }
    requires empty { room.items ≡ [] }
    requires room { length names.now ≤ vec_capacity room }
    ensures learns { Learns nodes.old nodes.new result.items text }
    ensures keys { AreKeysOf keys.now.entries result.items names.now }
{
    let mut found = room;
    for name in names {
        let key = *keys.get(name).unwrap();
        learn_name(nodes, key, text);
        found.push(key).unwrap();
    }
    found
}
