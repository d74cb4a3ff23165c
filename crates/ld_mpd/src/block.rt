use ld_names::{Lines, Name};

/// One block of a file: a text, or the lines of a file of data (MPD Language Extension).
#[derive(Debug, Drop)]
pub struct Block {
    pub name: Name,
    pub lines: Lines,
    pub is_data: bool,
}
