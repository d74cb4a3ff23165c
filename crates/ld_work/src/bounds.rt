/// The most entries of an expansion, 1 to 4,000,000, and the most files on a way, 1 to 64.
#[derive(Clone, Copy, Debug, PartialEq, Eq)]
pub struct Bounds {
    pub entries: u32,
    pub depth: u32,
}
