// Marks on texts. All memory for a mark is taken when its text is added.
ghost use Rattle.std.specs.Prelude.{◌≡◌, ◌≤◌, ◌<◌, ◌+◌, ◌++◌, ◌∷◌, ◌⊎◌, ℕ, OnOk, IfNone, IfSome, [], length, slice_set, true, false};
ghost use Rattle.ld_graph.specs.Inside.Marking.{IsListed, IsMarked, MarksMore};

use std::alloc::{AllocError, Global};
use std::marker::Model;

// A mark for each text, and the marked texts in the order in which they were marked.
#[derive(Drop)]
pub(crate) struct Marks {
    marks: Vec<bool>,
    list: Vec<u32>,
}

impl Model for Marks {
    ghost use Rattle.std.specs.Prelude.{◌≤◌, ◌-◌, length, min};
    ghost use Rattle.std.specs.Vec.{vec_capacity};
    ghost use Rattle.ld_graph.specs.Inside.Marking.{IsListed, Marked};

    ghost Value = { Marked };

    ghost view = { λ marks. record { marks = marks.marks.items; list = marks.list.items; room = min (vec_capacity marks.marks - length marks.marks.items) (vec_capacity marks.list - length marks.marks.items) } };

    ghost invariant = { λ marks. IsListed marks.marks.items marks.list.items × (length marks.marks.items ≤ vec_capacity marks.list) };
}

impl Marks {
    pub(crate) fn new(alloc: Global) -> Marks
        ensures marks { result.marks ≡ [] }
        ensures list { result.list ≡ [] }
    {
        Marks {
            marks: Vec::new(alloc),
            list: Vec::new(alloc),
        }
    }

    // Takes the memory for one more text.
    pub(crate) fn reserve(&mut self) -> Result<(), AllocError>
        ensures marks { self.new.marks ≡ self.old.marks }
        ensures list { self.new.list ≡ self.old.list }
        ensures kept { self.old.room ≤ self.new.room }
        ensures room { OnOk result (0 < self.new.room) }
    {
        self.marks.reserve(1)?;
        let marked = self.list.len();
        self.list.reserve(self.marks.len() + 1 - marked)?;
        Ok(())
    }

    // Adds a text that is not marked.
    pub(crate) fn add(&mut self)
        requires { 0 < self.old.room }
        ensures marks { self.new.marks ≡ self.old.marks ++ false ∷ [] }
        ensures list { self.new.list ≡ self.old.list }
    {
        self.marks.push(false).unwrap();
    }

    // The marked texts.
    pub(crate) fn listed(&self) -> &[u32]
        ensures list { result.now ≡ self.now.list }
        ensures listed { IsListed self.now.marks self.now.list }
    {
        &self.list
    }

    pub(crate) fn marks(&self) -> &[bool]
        ensures { result.now ≡ self.now.marks }
    {
        &self.marks
    }

    pub(crate) fn mark(&mut self, text: u32)
        requires { text < length self.old.marks }
        ensures more { MarksMore self.old self.new }
        ensures marked { IsMarked self.new text }
        ensures only { (other : ℕ) → IsMarked self.new other → IsMarked self.old other ⊎ (other ≡ text) }
    {
        if !self.marks[text as usize] {
            self.marks[text as usize] = true;
            self.list.push(text).unwrap();
        }
    }

    // Marks a text where it is asked for.
    pub(crate) fn mark_if(&mut self, text: u32, asked: bool)
        requires { text < length self.old.marks }
        ensures more { MarksMore self.old self.new }
        ensures marked { asked ≡ true → IsMarked self.new text }
        ensures only { (other : ℕ) → IsMarked self.new other → IsMarked self.old other ⊎ (other ≡ text) × (asked ≡ true) }
    {
        if asked {
            self.mark(text);
        }
    }

    // Takes the mark off the text that was marked last.
    pub(crate) fn take_last(&mut self) -> Option<u32>
        ensures none { IfNone result ((self.old.list ≡ []) × (self.new ≡ self.old)) }
        ensures unmarked { IfNone result ((text : ℕ) → IsMarked self.old text → ⊥) }
        ensures within { IfSome result (λ text. text < length self.old.marks) }
        ensures few { IfSome result (λ text. length self.old.list ≤ length self.old.marks) }
        ensures marks { IfSome result (λ text. self.new.marks ≡ slice_set self.old.marks text false) }
        ensures shorter { IfSome result (λ text. length self.new.list + 1 ≡ length self.old.list) }
    {
        let text = self.list.pop()?;
        self.marks[text as usize] = false;
        Some(text)
    }
}
