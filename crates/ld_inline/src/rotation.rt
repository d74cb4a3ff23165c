// Step lines.
ghost use Rattle.std.specs.Prelude.{◌≡◌, ◌++◌, ◌∷◌, [], OnOk};
ghost use Rattle.std.specs.Cmp.Lexicographic.{pointwise};
ghost use Rattle.ld_line.specs.Printing.{IsTurn, AreAngles, angle_words, turn_words};
ghost use Rattle.ld_steps.specs.declared.step.Turn.{Turn};
ghost use Rattle.ld_inline.specs.Text.{lines_text, rotation_to, same_turn, step_rotation, stepped_words};
ghost use Rattle.ld_inline.specs.Inside.Shown.{IsShownStep, following};

use crate::ranges::angles_range;
use crate::words::{append_number, append_word};
use ld_line::Angles;
use ld_steps::Turn;
use std::alloc::AllocError;

// The line at the end of a step with this view, behind a step with the view before.
#[tactic(auto, using(crate::proofs::Texts::one_line))]
pub(crate) fn append_step(
    before: &[Turn],
    view: &[Turn],
    into: &mut Vec<u8>,
) -> Result<(), AllocError>
    ensures text { OnOk result (into.new.items ≡ into.old.items ++ lines_text (stepped_words (step_rotation before.now view.now) ∷ [])) }
    ensures shown { OnOk result (IsShownStep before.now view.now) }
{
    if same_views(view, before) {
        return into.extend_from_slice(b"0 STEP\r\n");
    }
    into.extend_from_slice(b"0 ROTSTEP")?;
    append_rotation(view, into)?;
    into.extend_from_slice(b"\r\n")
}

fn same_views(view: &[Turn], before: &[Turn]) -> bool
    ensures { result ≡ pointwise same_turn view.now before.now }
{
    turn_law();
    view == before
}

// What `==` of turns means.
fn turn_law()
    ensures { (turn other : Turn) → ⟦<Turn as PartialEq>⟧.eq turn other ≡ same_turn turn other }
{}

#[tactic(auto, using(crate::proofs::Texts::last_rotation))]
fn append_rotation(view: &[Turn], into: &mut Vec<u8>) -> Result<(), AllocError>
    ensures text { OnOk result (into.new.items ≡ into.old.items ++ following (turn_words (rotation_to view.now))) }
    ensures turn { IsTurn (rotation_to view.now) }
{
    match view {
        [] => append_word(b"END", into),
        [turn] => append_only(*turn, into),
        [_, .., last] => append_angles(last.angles, b"ADD", into),
    }
}

fn append_only(turn: Turn, into: &mut Vec<u8>) -> Result<(), AllocError>
    ensures text { OnOk result (into.new.items ≡ into.old.items ++ following (turn_words (rotation_to (turn ∷ [])))) }
    ensures turn { IsTurn (rotation_to (turn ∷ [])) }
{
    if turn.absolute {
        append_angles(turn.angles, b"ABS", into)
    } else {
        append_angles(turn.angles, b"REL", into)
    }
}

fn append_angles(angles: Angles, word: &[u8], into: &mut Vec<u8>) -> Result<(), AllocError>
    ensures text { OnOk result (into.new.items ≡ into.old.items ++ following (angle_words angles ++ word.now ∷ [])) }
    ensures angles { AreAngles angles }
{
    angles_range(&angles);
    append_number(angles.x, into)?;
    append_number(angles.y, into)?;
    append_number(angles.z, into)?;
    append_word(word, into)
}
