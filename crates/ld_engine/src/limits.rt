ghost use Rattle.std.specs.Prelude.{◌≡◌};
ghost use Rattle.ld_engine.specs.Limits.{bad_limit};

use thiserror::Error;

/// How much a workspace may hold and answer.
#[derive(Clone, Copy, Debug, PartialEq, Eq)]
pub struct Limits {
    /// The most entries of an answer, 1 to 4,000,000.
    pub entries: u32,
    /// The most files on a way from a root, 1 to 64.
    pub depth: u32,
    /// The most entries that are kept for later answers, 0 to 8,000,000. Nothing is kept yet.
    pub cache: u32,
    /// The most files that are known, 1 to 65,535.
    pub texts: u32,
    /// The most bytes of a file, 1 to 33,554,432.
    pub file_bytes: u32,
    /// The most that the texts weigh, 1 to 268,435,456: the bytes of their lines, and 32 for each line.
    pub total_weight: u64,
}

/// Why a workspace is not opened.
#[derive(Clone, Copy, Debug, PartialEq, Eq, Error)]
pub enum OpenError {
    /// The limit of this number, from 1 in the order of the fields, is the first out of its bounds.
    #[error("a limit is out of its bounds")]
    BadLimit(u8),
    #[error("memory was lacking")]
    Memory,
}

impl Limits {
    // The number of the first limit that is out of its bounds.
    pub(crate) fn first_bad(&self) -> Option<u8>
        ensures { result ≡ bad_limit self.now }
    {
        if self.entries < 1 || self.entries > 4_000_000 {
            Some(1)
        } else if self.depth < 1 || self.depth > 64 {
            Some(2)
        } else if self.cache > 8_000_000 {
            Some(3)
        } else if self.texts < 1 || self.texts > 65_535 {
            Some(4)
        } else if self.file_bytes < 1 || self.file_bytes > 33_554_432 {
            Some(5)
        } else if self.total_weight < 1 || self.total_weight > 268_435_456 {
            Some(6)
        } else {
            None
        }
    }
}
