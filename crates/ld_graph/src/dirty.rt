ghost use Rattle.std.specs.Prelude.{◌≡◌, ◌<◌, IfOk, true, length, slice_set};
ghost use Rattle.ld_graph.specs.Dirt.{is_dirty, no_text};

use ld_names::TextId;
use std::alloc::{AllocError, Global};
use std::marker::Model;

/// A set of texts: those that a change may have altered. It has a mark for each number.
#[derive(Debug, Drop)]
pub struct Dirty {
    marks: Vec<bool>,
}

impl Model for Dirty {
    ghost use Rattle.std.specs.Prelude.{List, Bool};

    ghost Value = { List Bool };

    ghost view = { λ dirty. dirty.marks.items };
}

impl Dirty {
    /// No text, with room for so many.
    pub fn new(alloc: Global, texts: u32) -> Result<Dirty, AllocError>
        ensures { IfOk result (λ dirty. dirty ≡ no_text texts) }
    {
        Ok(Dirty {
            marks: vec![in alloc; false; texts as usize]?,
        })
    }

    /// Adds a text.
    pub fn mark(&mut self, id: TextId)
        requires { id.0 < length self.old }
        ensures { self.new ≡ slice_set self.old id.0 true }
    {
        self.marks[id.0 as usize] = true;
    }

    // The texts that these marks mark.
    pub(crate) fn fill(&mut self, marks: &[bool])
        requires { length marks.now ≡ length self.old }
        ensures { self.new ≡ marks.now }
    {
        self.marks.copy_from_slice(marks);
    }

    /// Whether a text is in it.
    pub fn has(&self, id: TextId) -> bool
        ensures { result ≡ is_dirty self.now id }
    {
        self.marks.get(id.0 as usize).copied().unwrap_or(false)
    }
}
