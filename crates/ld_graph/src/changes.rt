// Changes for which all memory is taken.
ghost use Rattle.std.specs.Prelude.{◌≡◌, ◌≤◌, IfOk, [], length, option_map};
ghost use Rattle.std.specs.Vec.{vec_capacity};
ghost use Rattle.ld_graph.specs.Inside.Linking.{names_listed};

use crate::dirty::Dirty;
use ld_names::{FileId, Name, TextId};
use std::alloc::{AllocError, Global};
use std::marker::Model;

// A file that is learnt, with the names of its references; `None` of an absent one.
#[derive(Drop)]
pub(crate) struct Learning {
    pub(crate) file: FileId,
    pub(crate) names: Option<Vec<Name>>,
    // Memory for the keys of the names.
    pub(crate) room: Vec<usize>,
}

impl Model for Learning {
    ghost use Rattle.std.specs.Prelude.{◌≡◌, ◌≤◌, [], length, option_map};
    ghost use Rattle.std.specs.Vec.{vec_capacity};
    ghost use Rattle.ld_graph.specs.Seen.{Learning};
    ghost use Rattle.ld_graph.specs.Inside.Linking.{names_listed};

    ghost Value = { Learning };

    ghost view = { λ learning. record { file = learning.file; names = option_map (λ names. names.items) learning.names } };

    ghost invariant = { λ learning. (learning.room.items ≡ []) × (length (names_listed learning.names) ≤ vec_capacity learning.room) };
}

// A text that gets other names, or is absent; and another one that is absent then.
#[derive(Drop)]
pub(crate) struct Editing {
    pub(crate) text: TextId,
    pub(crate) names: Option<Vec<Name>>,
    pub(crate) gone: Option<TextId>,
    // Memory for the keys of the names, and for the dirt.
    pub(crate) room: Vec<usize>,
    pub(crate) dirty: Dirty,
}

impl Model for Editing {
    ghost use Rattle.std.specs.Prelude.{◌≡◌, ◌≤◌, [], length, option_map};
    ghost use Rattle.std.specs.Vec.{vec_capacity};
    ghost use Rattle.ld_graph.specs.Seen.{Editing};
    ghost use Rattle.ld_graph.specs.Inside.Linking.{names_listed};

    ghost Value = { Editing };

    ghost view = { λ editing. record { text = editing.text.0; names = option_map (λ names. names.items) editing.names; gone = option_map (λ id. id.0) editing.gone; texts = length editing.dirty } };

    ghost invariant = { λ editing. (editing.room.items ≡ []) × (length (names_listed editing.names) ≤ vec_capacity editing.room) };
}

impl Learning {
    pub(crate) fn new(
        alloc: Global,
        file: &FileId,
        names: Option<Vec<Name>>,
    ) -> Result<Learning, AllocError>
        ensures { IfOk result (λ learning. learning ≡ record { file = file.now; names = option_map (λ names. names.items) names }) }
    {
        let room = room_for(alloc, &names)?;
        Ok(Learning {
            file: file.copy(alloc)?,
            names,
            room,
        })
    }
}

impl Editing {
    pub(crate) fn new(
        alloc: Global,
        text: TextId,
        names: Option<Vec<Name>>,
        gone: Option<TextId>,
        texts: u32,
    ) -> Result<Editing, AllocError>
        ensures { IfOk result (λ editing. editing ≡ record { text = text.0; names = option_map (λ names. names.items) names; gone = option_map (λ id. id.0) gone; texts = texts }) }
    {
        let room = room_for(alloc, &names)?;
        Ok(Editing {
            text,
            names,
            gone,
            room,
            dirty: Dirty::new(alloc, texts)?,
        })
    }
}

// Memory for the keys of the names that there may be.
fn room_for(alloc: Global, names: &Option<Vec<Name>>) -> Result<Vec<usize>, AllocError>
    ensures empty { IfOk result (λ room. room.items ≡ []) }
    ensures room { IfOk result (λ room. length (names_listed names.now) ≤ vec_capacity room) }
{
    match names {
        Some(names) => Vec::with_capacity(alloc, names.len()),
        None => Ok(Vec::new(alloc)),
    }
}
