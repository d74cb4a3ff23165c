ghost use Rattle.std.specs.Prelude.{◌≡◌};
ghost use Rattle.std.specs.Option.{option_copied};
ghost use Rattle.ld_texts.specs.Learning.{edit_in, learnt_file, learnt_lines};

use crate::edit::Edit;
use crate::text::KnownText;
use ld_names::{Bytes, FileId};
use std::marker::Model;

/// A change of `Texts` that is ready to be made: all the memory that it needs is taken.
#[derive(Drop)]
pub struct Ready {
    pub(crate) prepared: Prepared,
}

#[derive(Drop)]
pub(crate) enum Prepared {
    File {
        file: FileId,
        text: Option<KnownText>,
    },
    Edit {
        edit: Edit,
        // Memory for the lines of the edited text, where its own does not suffice.
        room: Vec<Bytes>,
    },
}

impl Model for Ready {
    ghost use Rattle.ld_texts.specs.Learning.{Ready};
    ghost use Rattle.ld_texts.specs.Inside.Made.{IsFree, ready_of};

    ghost Value = { Ready };

    ghost view = { λ ready. ready_of ready.prepared };

    ghost invariant = { λ ready. IsFree ready.prepared };
}

impl Ready {
    /// The file that is learnt; `None` for an edit.
    pub fn learnt(&self) -> Option<&FileId>
        ensures { option_copied result ≡ learnt_file self.now }
    {
        match &self.prepared {
            Prepared::File { file, .. } => Some(file),
            Prepared::Edit { .. } => None,
        }
    }

    /// The lines of the file that is learnt; `None` where it is absent, and for an edit.
    pub fn learnt_lines(&self) -> Option<&[Bytes]>
        ensures { option_copied result ≡ learnt_lines self.now }
    {
        match &self.prepared {
            Prepared::File { text, .. } => Some(text.as_ref()?.lines()),
            Prepared::Edit { .. } => None,
        }
    }

    /// The edit that is made; `None` where a file is learnt.
    pub fn edit(&self) -> Option<&Edit>
        ensures { option_copied result ≡ edit_in self.now }
    {
        match &self.prepared {
            Prepared::File { .. } => None,
            Prepared::Edit { edit, .. } => Some(edit),
        }
    }
}
