use ld_names::FileId;
use ld_texts::Edit;

/// What is asked of a model.
#[derive(Clone, Copy, Debug, PartialEq, Eq)]
pub enum Query {
    /// What is drawn.
    Faces,
    /// What is drawn step by step.
    Steps,
    /// Which parts it has, and how many of each.
    Parts,
}

/// A file whose lines are expanded in a colour, by the number of its colour word.
#[derive(Debug, Drop, PartialEq, Eq)]
pub struct Root {
    pub file: FileId,
    pub colour: u32,
}

/// What a line of a script says.
#[derive(Debug, Drop)]
pub enum Command {
    /// A change of a text.
    Edit(Edit),
    /// A query of a file, or of the main model where none is named.
    Ask(Query, Option<Root>),
    /// Nothing: the line with this number, from 1, is no command.
    Bad(u32),
}
