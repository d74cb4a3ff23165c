ghost use Rattle.std.specs.Prelude.{◌≡◌, IfOk};
ghost use Rattle.ld_texts.specs.declared.edit.PrepareError.TheVariants.{Memory};

use ld_names::{Bytes, FileId, Lines, List};
use std::alloc::{AllocError, Global};

/// A change of a line of a file, or of which files are there. Lines are numbered from 1, and a text
/// is the bytes of a line without its end.
#[derive(Debug, Drop)]
pub enum Edit {
    /// The text stands in the place of a line.
    Set {
        file: FileId,
        line: u32,
        text: Bytes,
    },
    /// The text becomes a line before the given one, or behind the last one.
    Insert {
        file: FileId,
        line: u32,
        text: Bytes,
    },
    /// A line goes.
    Delete {
        file: FileId,
        line: u32,
    },
    /// An absent file is there, without lines.
    New {
        file: FileId,
    },
    /// An absent file is there, with these lines.
    Restore {
        file: FileId,
        lines: Lines,
    },
    /// A file is absent.
    Drop {
        file: FileId,
    },
    /// The lines of one file are those of another, which was absent; the first one is absent.
    Move {
        from: FileId,
        to: FileId,
    },
}

impl Edit {
    /// An equal edit.
    pub fn copy(&self, alloc: Global) -> Result<Edit, AllocError>
        ensures { IfOk result (λ edit. edit ≡ self.now) }
    {
        match self {
            Edit::Set { file, line, text } => Ok(Edit::Set {
                file: file.copy(alloc)?,
                line: *line,
                text: List::from_slice(alloc, text.as_slice())?,
            }),
            Edit::Insert { file, line, text } => Ok(Edit::Insert {
                file: file.copy(alloc)?,
                line: *line,
                text: List::from_slice(alloc, text.as_slice())?,
            }),
            Edit::Delete { file, line } => Ok(Edit::Delete {
                file: file.copy(alloc)?,
                line: *line,
            }),
            Edit::New { file } => Ok(Edit::New {
                file: file.copy(alloc)?,
            }),
            Edit::Restore { file, lines } => Ok(Edit::Restore {
                file: file.copy(alloc)?,
                lines: copy_lines(alloc, lines.as_slice())?,
            }),
            Edit::Drop { file } => Ok(Edit::Drop {
                file: file.copy(alloc)?,
            }),
            Edit::Move { from, to } => Ok(Edit::Move {
                from: from.copy(alloc)?,
                to: to.copy(alloc)?,
            }),
        }
    }
}

fn copy_lines(alloc: Global, lines: &[Bytes]) -> Result<Lines, AllocError>
    ensures { IfOk result (λ copied. copied ≡ lines.now) }
{
    let mut copied = Vec::with_capacity(alloc, lines.len())?;
    for line in lines {
        copied.push(List::from_slice(alloc, line.as_slice())?)?;
    }
    Ok(List::from_vec(copied))
}

/// Why an edit is refused: the first of these that holds.
#[derive(Clone, Copy, Debug, PartialEq, Eq)]
pub enum EditRefusal {
    /// A line feed stands in a line, or it begins or ends a block (MPD Language Extension).
    BadLine,
    /// The file is absent.
    NoFile,
    /// The file is present.
    FileThere,
    /// The file has no such line. It has so many.
    NoLine(u32),
    /// The texts would weigh more than they may. They weigh so much.
    Full(u64),
}

/// Why an edit is not prepared.
#[derive(Clone, Copy, Debug, PartialEq, Eq)]
pub enum PrepareError {
    Refused(EditRefusal),
    Memory,
}

impl From<AllocError> for PrepareError {
    ghost from_gives = { λ _ e. e ≡ Memory };

    fn from(_error: AllocError) -> PrepareError {
        PrepareError::Memory
    }
}
