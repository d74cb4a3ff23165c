ghost use Rattle.std.specs.Prelude.{◌≡◌, None, IfOk, option_map};
ghost use Rattle.std.specs.Option.{option_copied};
ghost use Rattle.ld_texts.specs.Editing.{AreKnown, files_in, refusal_of};
ghost use Rattle.ld_texts.specs.Learning.{CanCommit};
ghost use Rattle.ld_graph.specs.Agreeing.{Agrees, Edits, HasDirt, HasRoom, IsAfter, Learns, graph_change, editing_of, left_file, names_of, number_in, written_file};
ghost use Rattle.ld_graph.specs.Seen.{KeepsGraph};

use crate::changes::{Editing, Learning};
use crate::dirty::Dirty;
use crate::graph::Graph;
use crate::laws::items_law;
use crate::names::{names_after, names_of};
use ld_names::{Bytes, FileId, TextId};
use ld_texts::{Edit, Ready, Texts};
use std::alloc::{AllocError, Global};
use std::marker::Model;

/// A change that a graph is ready for: all the memory that it needs is taken.
#[derive(Drop)]
pub struct GraphReady {
    change: Prepared,
}

#[derive(Drop)]
pub(crate) enum Prepared {
    // With the dirt, which is of no text.
    Learn(Learning, Dirty),
    Edit(Editing),
}

impl Model for GraphReady {
    ghost use Rattle.ld_graph.specs.Agreeing.{GraphChange};
    ghost use Rattle.ld_graph.specs.Inside.Naming.{change_in};

    ghost Value = { GraphChange };

    ghost view = { λ ready. change_in ready.change };
}

impl Graph {
    /// Takes the memory for a change that is ready to be made of the texts with which the graph agrees.
    /// The names are read from the lines that the change brings.
    pub fn prepare(
        &mut self,
        alloc: Global,
        texts: &Texts,
        ready: &Ready,
    ) -> Result<GraphReady, AllocError>
        requires can { CanCommit texts.now ready.now }
        requires agrees { Agrees self.old texts.now }
        ensures change { IfOk result (λ change. change ≡ graph_change texts.now.known ready.now) }
        ensures room { IfOk result (HasRoom self.new) }
        ensures same { KeepsGraph self.old self.new }
    {
        match ready.edit() {
            Some(edit) => self.prepare_edited(alloc, texts, edit),
            None => {
                let file = ready.learnt().unwrap();
                self.prepare_learnt(alloc, file, ready.learnt_lines())
            }
        }
    }

    fn prepare_learnt(
        &mut self,
        alloc: Global,
        file: &FileId,
        lines: Option<&[Bytes]>,
    ) -> Result<GraphReady, AllocError>
        ensures change { IfOk result (λ change. change ≡ Learns (record { file = file.now; names = names_of (option_copied lines.entry) })) }
        ensures room { IfOk result (HasRoom self.new) }
        ensures same { KeepsGraph self.old self.new }
    {
        let names = names_of(alloc, lines)?;
        let none = Dirty::new(alloc, 0)?;
        let learning = self.prepare_learn(alloc, file, names)?;
        Ok(GraphReady {
            change: Prepared::Learn(learning, none),
        })
    }

    fn prepare_edited(
        &mut self,
        alloc: Global,
        texts: &Texts,
        edit: &Edit,
    ) -> Result<GraphReady, AllocError>
        requires known { AreKnown texts.now.known (files_in edit.now) }
        requires agrees { Agrees self.old texts.now }
        requires fits { refusal_of texts.now.max_weight texts.now.known edit.now ≡ None }
        ensures change { IfOk result (λ change. change ≡ Edits (editing_of texts.now.known edit.now)) }
        ensures room { IfOk result (HasRoom self.new) }
        ensures same { KeepsGraph self.old self.new }
    {
        items_law();
        let names = names_after(alloc, texts, edit)?;
        let text = number(texts, written(edit));
        let gone = left(texts, edit);
        let editing = self.prepare_edit(alloc, text, names, gone)?;
        Ok(GraphReady {
            change: Prepared::Edit(editing),
        })
    }

    /// Makes the change that the texts have made. It takes no memory. The answer is the dirt of an edit;
    /// that of a learnt file says nothing.
    pub fn commit(&mut self, texts: &Texts, ready: GraphReady) -> Dirty
        requires room { HasRoom self.old ready }
        requires after { IsAfter self.old ready texts.now }
        ensures depth { self.new.depth ≡ self.old.depth }
        ensures agrees { Agrees self.new texts.now }
        ensures dirt { HasDirt self.old self.new ready result }
    {
        let _ = texts.known();
        items_law();
        match ready.change {
            Prepared::Learn(learning, none) => {
                self.learn(learning);
                none
            }
            Prepared::Edit(editing) => self.edit(editing),
        }
    }
}

// The number of a known file.
fn number(texts: &Texts, file: &FileId) -> TextId
    ensures { result.0 ≡ number_in texts.now.known file.now }
{
    texts.id(file).unwrap_or(TextId(0))
}

// The file that an edit writes.
fn written(edit: &Edit) -> &FileId
    ensures { result.now ≡ written_file edit.now }
{
    match edit {
        Edit::Set { file, .. }
        | Edit::Insert { file, .. }
        | Edit::Delete { file, .. }
        | Edit::New { file }
        | Edit::Restore { file, .. }
        | Edit::Drop { file } => file,
        Edit::Move { to, .. } => to,
    }
}

// The text that a move leaves.
fn left(texts: &Texts, edit: &Edit) -> Option<TextId>
    ensures { option_map (λ id. id.0) result ≡ option_map (number_in texts.now.known) (left_file edit.now) }
{
    match edit {
        Edit::Move { from, .. } => Some(number(texts, from)),
        _ => None,
    }
}
