// The steps of an answer, by the ends of its root's lines.
ghost use Rattle.std.specs.Prelude.{◌≡◌, All, IfOk, length, map};
ghost use Rattle.ld_engine.specs.Inside.Ends.{IsWithin, part_by};

use ld_steps::{StepMark, StepPart};
use std::alloc::{AllocError, Global};

fn part_of(mark: StepMark, line_ends: &[u32]) -> StepPart
    requires { IsWithin (length line_ends.now) mark }
    ensures { result ≡ part_by line_ends.now mark }
{
    let StepMark {
        first_line,
        last_line,
        view,
    } = mark;
    StepPart {
        first: line_ends[first_line as usize - 1],
        end: line_ends[last_line as usize],
        view,
    }
}

// Each step with its range: how many entries stand before its first line, and up to its last.
pub(crate) fn step_parts(
    alloc: Global,
    marks: Vec<StepMark>,
    line_ends: &[u32],
) -> Result<Vec<StepPart>, AllocError>
    requires { All (IsWithin (length line_ends.now)) marks.items }
    ensures { IfOk result (λ parts. parts.items ≡ map (part_by line_ends.now) marks.items) }
{
    let mut parts = Vec::with_capacity(alloc, marks.len())?;
    let mut rest = marks.into_iter();
    while let Some(mark) = rest.next() {
        parts.push(part_of(mark, line_ends))?;
    }
    Ok(parts)
}
