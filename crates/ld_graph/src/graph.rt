ghost use Rattle.std.specs.Prelude.{◌≡◌, ◌≢◌, ◌≤◌, ◌<◌, ◌^◌, ◌+◌, ◌↔◌, IfOk, true, suc, [], length, option_and_then, option_map, slice_get};
ghost use Rattle.std.specs.Option.{is_some, option_copied};
ghost use Rattle.ld_names.specs.declared.file.TextId.{TextId};
ghost use Rattle.ld_graph.specs.Changing.{IsDirty};
ghost use Rattle.ld_graph.specs.Dirt.{is_dirty};
ghost use Rattle.ld_graph.specs.Items.{names_at, number_of, web_of};
ghost use Rattle.ld_graph.specs.Seen.{HasRoomToEdit, HasRoomToLearn, IsEditOf, KeepsGraph, changed_by, items_edited, items_learnt};
ghost use Rattle.ld_graph.specs.Web.{height};

use crate::changes::{Editing, Learning};
use crate::dirty::Dirty;
use crate::links::Links;
use crate::marks::Marks;
use crate::rise::{raise_learnt, settle};
use crate::up::{mark_listed, mark_touched, mark_up};
use ld_names::{FileId, Name, TextId, file_laws};
use std::alloc::{AllocError, Global};
use std::marker::Model;

/// The references of the known texts: which names each has, and how high each stands.
#[derive(Drop)]
pub struct Graph {
    depth: u32,
    links: Links,
    heights: Vec<u8>,
    marks: Marks,
}

impl Model for Graph {
    ghost use Rattle.std.specs.Prelude.{length, min, ◌-◌};
    ghost use Rattle.std.specs.Vec.{vec_capacity};
    ghost use Rattle.ld_graph.specs.Seen.{Graph};
    ghost use Rattle.ld_graph.specs.Inside.Rising.{IsKept};

    ghost Value = { Graph };

    ghost view = { λ graph. record { depth = graph.depth; items = graph.links.items; spares = graph.links.spares; places = graph.links.places; room = min graph.links.room (min (vec_capacity graph.heights - length graph.heights.items) graph.marks.room) } };

    ghost invariant = { λ graph. IsKept graph.depth graph.links.items graph.heights.items graph.marks };
}

impl Graph {
    /// The graph of no texts, with heights up to one more than the depth.
    pub fn new(alloc: Global, depth: u32) -> Graph
        requires least { 1 ≤ depth }
        requires most { depth ≤ 64 }
        ensures depth { result.depth ≡ depth }
        ensures items { result.items ≡ [] }
    {
        Graph {
            depth,
            links: Links::new(alloc),
            heights: Vec::new(alloc),
            marks: Marks::new(alloc),
        }
    }

    /// The number of texts on the longest walk of references from a text, itself included, up to one more
    /// than the depth; 0 of a text that is absent or not known.
    pub fn height(&self, id: TextId) -> u32
        ensures { result ≡ height (web_of self.now.items) (suc self.now.depth) id.0 }
    {
        u32::from(self.heights.get(id.0 as usize).copied().unwrap_or(0))
    }

    /// The name of a text's reference, by its place from 0.
    pub fn name(&self, id: TextId, index: u32) -> Option<&Name>
        ensures { option_copied result ≡ option_and_then (λ names. slice_get names index) (names_at self.now.items id.0) }
    {
        self.links.name(id.0, index)
    }

    // Takes the memory to learn a file with the names of its references, or as absent.
    pub(crate) fn prepare_learn(
        &mut self,
        alloc: Global,
        file: &FileId,
        names: Option<Vec<Name>>,
    ) -> Result<Learning, AllocError>
        ensures learning { IfOk result (λ learning. learning ≡ record { file = file.now; names = option_map (λ names. names.items) names }) }
        ensures room { IfOk result (HasRoomToLearn self.new) }
        ensures same { KeepsGraph self.old self.new }
    {
        self.links.reserve_text()?;
        self.heights.reserve(1)?;
        self.marks.reserve()?;
        self.links.keep(alloc, &file.name)?;
        self.links.keep_listed(alloc, &names)?;
        Learning::new(alloc, file, names)
    }

    // Adds a file that is not known. It takes no memory.
    pub(crate) fn learn(&mut self, learning: Learning)
        requires room { HasRoomToLearn self.old learning }
        requires unknown { number_of self.old.items learning.file ≡ None }
        requires few { length self.old.items + 1 < 2 ^ 32 }
        ensures depth { self.new.depth ≡ self.old.depth }
        ensures items { self.new.items ≡ items_learnt self.old.items learning }
    {
        file_laws();
        let text = self.heights.len() as u32;
        let Learning { file, names, room } = learning;
        self.links.add(file);
        self.links.give_listed(text, &names, room);
        self.heights.push(0).unwrap();
        self.marks.add();
        raise_learnt(
            &self.links,
            &mut self.heights,
            &mut self.marks,
            text,
            self.depth as u8 + 1,
        );
    }

    // Takes the memory for other names of a text, which is absent where it has none, and for another text
    // that is absent then.
    pub(crate) fn prepare_edit(
        &mut self,
        alloc: Global,
        text: TextId,
        names: Option<Vec<Name>>,
        gone: Option<TextId>,
    ) -> Result<Editing, AllocError>
        ensures editing { IfOk result (λ editing. editing ≡ record { text = text.0; names = option_map (λ names. names.items) names; gone = option_map (λ id. id.0) gone; texts = length self.old.items }) }
        ensures room { IfOk result (HasRoomToEdit self.new) }
        ensures same { KeepsGraph self.old self.new }
    {
        self.links.keep_listed(alloc, &names)?;
        Editing::new(alloc, text, names, gone, self.heights.len() as u32)
    }

    // Gives the texts their names, and answers the dirt. It takes no memory.
    pub(crate) fn edit(&mut self, editing: Editing) -> Dirty
        requires apt { IsEditOf self.old.items editing }
        requires room { HasRoomToEdit self.old editing }
        ensures depth { self.new.depth ≡ self.old.depth }
        ensures items { self.new.items ≡ items_edited self.old.items editing }
        ensures dirt { (text : TextId) → (is_dirty result text ≡ true) ↔ IsDirty self.old.items self.new.items (changed_by editing) text.0 }
    {
        let Editing {
            text,
            names,
            gone,
            room,
            dirty,
        } = editing;
        file_laws();
        let _ = self.marks.listed();
        let turned = turns(&self.links, text.0, &names);
        let went = self.links.drop_listed(gone);
        self.links.take_names(text.0);
        self.links.give_listed(text.0, &names, room);
        mark_touched(&self.links, &mut self.marks, text.0, turned);
        mark_listed(&self.links, &mut self.marks, gone, went);
        mark_up(&self.links, &mut self.marks);
        let mut dirty = dirty;
        dirty.fill(self.marks.marks());
        settle(
            &self.links,
            &mut self.heights,
            &mut self.marks,
            self.depth as u8 + 1,
        );
        dirty
    }
}

// Whether a text appears or goes where it gets these names.
fn turns(links: &Links, text: u32, names: &Option<Vec<Name>>) -> bool
    ensures { (result ≡ true) ↔ (is_some (names_at links.now.items text) ≢ is_some names.now) }
{
    links.present(text) != names.is_some()
}
