ghost use Rattle.std.specs.Prelude.{◌≡◌, ◌+◌, ◌≤◌, ◌<◌, ◌^◌, IfOk, OnOk, length};
ghost use Rattle.ld_line.specs.Shown.{shows};
ghost use Rattle.ld_steps.specs.Steps.{steps_of};
ghost use Rattle.ld_steps.specs.View.{rotated};
ghost use Rattle.ld_steps.specs.Inside.Marking.{EndsStep, MarksLine, drops_last};

use crate::step::{StepMark, Turn};
use crate::view::rotate;
use ld_line::{Line, RotWord};
use ld_names::List;
use std::alloc::{AllocError, Global};

// The steps of the lines that are passed.
#[derive(Drop)]
struct Marking {
    alloc: Global,
    marks: Vec<StepMark>,
    // The view that stands.
    view: Vec<Turn>,
    passed: u32,
    // The number of the last step line, or 0.
    ended: u32,
    // Whether a line behind that one refers or draws.
    drawn: bool,
}

impl Marking {
    // Ends a step at the last line that is passed.
    fn end_step(&mut self) -> Result<(), AllocError>
        requires { self.old.ended + 1 < 2 ^ 32 }
        ensures { OnOk result (EndsStep self.old.view.items self.old self.new) }
    {
        let view = List::from_slice(self.alloc, self.view.as_slice())?;
        self.marks.push(StepMark {
            first_line: self.ended + 1,
            last_line: self.passed,
            view,
        })?;
        self.ended = self.passed;
        self.drawn = false;
        Ok(())
    }

    // A rotation step turns the view of the step that it ends.
    fn end_rotated(&mut self, word: RotWord) -> Result<(), AllocError>
        requires { self.old.ended + 1 < 2 ^ 32 }
        ensures { OnOk result (EndsStep (rotated word self.old.view.items) self.old self.new) }
    {
        rotate(&mut self.view, word)?;
        self.end_step()?;
        Ok(())
    }

    // Whether the step that is open is dropped at the end of the text.
    fn drops_last(&self) -> bool
        ensures { result ≡ drops_last self.now }
    {
        !self.drawn && !self.marks.is_empty()
    }

    fn pass(&mut self, line: &Line) -> Result<(), AllocError>
        requires room { self.old.passed + 1 < 2 ^ 32 }
        requires ended { self.old.ended ≤ self.old.passed }
        ensures passed { OnOk result (self.new.passed ≡ self.old.passed + 1) }
        ensures ended { OnOk result (self.new.ended ≤ self.new.passed) }
        ensures marks { OnOk result (MarksLine line.now self.old self.new) }
    {
        self.passed += 1;
        match line {
            Line::Step => self.end_step(),
            Line::Rot(word) => self.end_rotated(*word),
            _ => {
                self.drawn |= shows(line);
                Ok(())
            }
        }
    }
}

// Whether a line refers to a file or draws.
fn shows(line: &Line) -> bool
    ensures { result ≡ shows line.now }
{
    matches!(line, Line::Ref { .. } | Line::Draw { .. })
}

/// The steps of a text's lines. The last step has no step line; it is dropped where it has no line
/// that refers or draws, and a step stands before it.
pub fn steps_of(alloc: Global, lines: &[Line]) -> Result<Vec<StepMark>, AllocError>
    requires { length lines.now < 2 ^ 32 }
    ensures { IfOk result (λ marks. marks.items ≡ steps_of lines.now) }
{
    let mut marking = Marking {
        alloc,
        marks: Vec::new(alloc),
        view: Vec::new(alloc),
        passed: 0,
        ended: 0,
        drawn: false,
    };
    for line in lines {
        marking.pass(line)?;
    }
    if marking.drops_last() {
        return Ok(marking.marks);
    }
    marking.end_step()?;
    Ok(marking.marks)
}
