use ld_line::Angles;
use ld_names::List;

/// A turn of a view: absolute, or in addition to how the model is seen.
#[derive(Clone, Copy, Debug, PartialEq, Eq)]
pub struct Turn {
    pub absolute: bool,
    pub angles: Angles,
}

/// Where a step begins and ends (File Format 1.0.2, "STEP"): its first and its last line, from 1,
/// and its view, the oldest turn first. A text of no lines has one step, of line 1 to line 0.
#[derive(Debug, Drop)]
pub struct StepMark {
    pub first_line: u32,
    pub last_line: u32,
    pub view: List<Turn>,
}

/// A step of an answer: its range of entries, from `first` to before `end`, and its view, the oldest
/// turn first.
#[derive(Debug, Drop)]
pub struct StepPart {
    pub first: u32,
    pub end: u32,
    pub view: List<Turn>,
}
