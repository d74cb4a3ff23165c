use crate::listing::Listing;

/// What is to be done, with its options. The words are borrowed from those that clap was given.
#[derive(Clone, Copy, Debug)]
pub struct Request<'a> {
    pub task: Task<'a>,
    pub options: Options<'a>,
}

/// The command word with its positional words.
#[derive(Clone, Copy, Debug)]
pub enum Task<'a> {
    /// To show this of a file.
    Show(Listing, &'a str),
    /// To answer a script over a file: the file, then the script.
    Replay(&'a str, &'a str),
    /// To generate a model of 1 to 100,000 bricks.
    Generate(u32),
}

/// The value of each option, or its default.
#[derive(Clone, Copy, Debug)]
pub struct Options<'a> {
    /// The file that defines colours.
    pub colours: Option<&'a str>,
    /// The colour of the main model.
    pub main: u32,
    /// How many worker threads: 1 to 16.
    pub workers: u32,
    /// The most entries of an answer: 1 to 4,000,000.
    pub max_entries: u32,
    /// The most files on a way from a root: 1 to 64.
    pub max_depth: u32,
    /// The most entries that are kept for later answers: 0 to 8,000,000.
    pub cache: u32,
}
