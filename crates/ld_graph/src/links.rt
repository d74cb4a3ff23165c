ghost use Rattle.std.specs.Prelude.{◌≡◌, ◌≤◌, ◌<◌, ◌↔◌, ℕ, min, OnOk, true, [], length, get_or, filter_map, option_and_then, slice_get};
ghost use Rattle.std.specs.List.{All};
ghost use Rattle.std.specs.Option.{is_some, option_copied, option_map_or};
ghost use Rattle.ld_graph.specs.Inside.Linking.{AreUsers, KeepsLinks, LooksAt, found_at, found_by_name, has_place, has_spare, node_of};
ghost use Rattle.ld_graph.specs.Items.{names_at, web_of};
ghost use Rattle.ld_graph.specs.Web.{over, tallest};

use crate::node::{Node, Text, looks_in};
use ld_names::{Folder, Name, file_laws};
use slab::Slab;
use std::alloc::{AllocError, Global};
use std::collections::BTreeMap;
use std::marker::Model;

// The texts with the names of their references. Each name has one node, which knows the texts that refer by
// it, so that a change of what it finds needs no repair.
#[derive(Drop)]
pub(crate) struct Links {
    pub(crate) nodes: Slab<Node>,
    pub(crate) keys: BTreeMap<Name, usize>,
    pub(crate) texts: Vec<Text>,
}

impl Model for Links {
    ghost use Rattle.std.specs.Prelude.{length, ◌-◌};
    ghost use Rattle.std.specs.Vec.{vec_capacity};
    ghost use Rattle.ld_graph.specs.Inside.Linking.{IsLinked, Linked, items_of};
    ghost use Rattle.ld_graph.specs.Inside.Nodes.{has_space, has_spare, names_with};

    ghost Value = { Linked };

    ghost view = { λ links. record { items = items_of links.nodes links.texts.items; spares = names_with has_spare links.nodes links.keys.entries; places = names_with has_space links.nodes links.keys.entries; room = vec_capacity links.texts - length links.texts.items } };

    ghost invariant = { λ links. IsLinked links.nodes links.keys.entries links.texts.items };
}

impl Links {
    pub(crate) fn new(alloc: Global) -> Links
        ensures { result.items ≡ [] }
    {
        Links {
            nodes: Slab::new(alloc),
            keys: BTreeMap::new(alloc),
            texts: Vec::new(alloc),
        }
    }

    // The name of a text's reference, by its place.
    pub(crate) fn name(&self, text: u32, index: u32) -> Option<&Name>
        ensures { option_copied result ≡ option_and_then (λ names. slice_get names index) (names_at self.now.items text) }
    {
        let names = self.texts.get(text as usize)?.names.as_ref()?;
        let key = names.get(index as usize)?;
        Some(&self.nodes.get(*key)?.name)
    }

    // The texts that refer by the name of a text.
    pub(crate) fn users(&self, text: u32) -> &[u32]
        ensures users { AreUsers self.now.items text result.now }
        ensures within { All (λ user. user < length self.now.items) result.now }
    {
        match node_of(&self.nodes, &self.texts, text) {
            Some(node) => &node.users,
            None => &[],
        }
    }

    // The present text that a text finds by the name of another.
    pub(crate) fn found(&self, user: u32, text: u32) -> Option<u32>
        ensures { result ≡ found_by_name self.now.items user text }
    {
        let from = self.texts.get(user as usize)?.folder;
        node_of(&self.nodes, &self.texts, text)?.found(&self.texts, from)
    }

    // Whether a text looks in the folder of another.
    pub(crate) fn looks_at(&self, user: u32, text: u32) -> bool
        ensures { (result ≡ true) ↔ LooksAt self.now.items user text }
    {
        let Some(from) = self.texts.get(user as usize) else {
            return false;
        };
        let Some(file) = self.texts.get(text as usize) else {
            return false;
        };
        looks_in(from.folder, file.folder)
    }

    // Whether a text is present.
    pub(crate) fn present(&self, text: u32) -> bool
        ensures { result ≡ is_some (names_at self.now.items text) }
    {
        match self.texts.get(text as usize) {
            Some(known) => known.names.is_some(),
            None => false,
        }
    }

    // One more than the greatest of the heights of the texts that a text refers to, up to the cap; 0 of an
    // absent text.
    pub(crate) fn over(&self, heights: &[u8], text: u32, cap: u8) -> u8
        ensures { result ≡ min cap (over (web_of self.now.items) (λ other. get_or heights.now other 0) text) }
    {
        let Some(known) = self.texts.get(text as usize) else {
            return 0;
        };
        let Some(names) = &known.names else {
            return 0;
        };
        let most = tallest_found(&self.nodes, &self.texts, heights, names, known.folder);
        if most < cap { most + 1 } else { cap }
    }

    // Takes the memory for one more text.
    pub(crate) fn reserve_text(&mut self) -> Result<(), AllocError>
        ensures same { KeepsLinks self.old self.new }
        ensures room { OnOk result (0 < self.new.room) }
    {
        self.texts.reserve(1)?;
        Ok(())
    }

    // Gives a name a place: a node with the memory for one more text that refers by it, and for the number
    // of one more file.
    pub(crate) fn keep(&mut self, alloc: Global, name: &Name) -> Result<(), AllocError>
        ensures same { KeepsLinks self.old self.new }
        ensures spare { OnOk result (has_spare self.new name.now ≡ true) }
        ensures place { OnOk result (has_place self.new name.now ≡ true) }
    {
        file_laws();
        if let Some(key) = self.keys.get(name) {
            return self.nodes.get_mut(*key).unwrap().reserve();
        }
        let node = Node::new(alloc, name)?;
        self.nodes.reserve(1)?;
        self.keys
            .insert(name.copy(alloc)?, self.nodes.vacant_key())?;
        self.nodes.insert_reserved(node);
        Ok(())
    }
}

// The node of a text's name.
fn node_of<'a>(nodes: &'a Slab<Node>, texts: &[Text], text: u32) -> Option<&'a Node>
    ensures { option_copied result ≡ node_of nodes.now texts.now text }
{
    nodes.get(texts.get(text as usize)?.name)
}

// The greatest of the heights of what the names find.
fn tallest_found(
    nodes: &Slab<Node>,
    texts: &[Text],
    heights: &[u8],
    keys: &[usize],
    from: Folder,
) -> u8
    ensures { result ≡ tallest (λ other. get_or heights.now other 0) (filter_map (found_at nodes.now texts.now from) keys.now) }
{
    let mut most = 0;
    for key in keys {
        most = height_found(nodes, texts, heights, *key, from).max(most);
    }
    most
}

// The height of what a name finds.
fn height_found(nodes: &Slab<Node>, texts: &[Text], heights: &[u8], key: usize, from: Folder) -> u8
    ensures { result ≡ option_map_or (λ other. get_or heights.now other 0) (found_at nodes.now texts.now from key) 0 }
{
    let Some(node) = nodes.get(key) else {
        return 0;
    };
    let Some(text) = node.found(texts, from) else {
        return 0;
    };
    heights.get(text as usize).copied().unwrap_or(0)
}
