ghost use Rattle.std.specs.Prelude.{◌≡◌, OnOk};
ghost use Rattle.ld_steps.specs.View.{one_more, rotated};

use crate::step::Turn;
use ld_line::RotWord;
use std::alloc::AllocError;

// The most turns that a view has.
const MOST_TURNS: usize = 8;

// The view behind a rotation step.
pub(crate) fn rotate(view: &mut Vec<Turn>, word: RotWord) -> Result<(), AllocError>
    ensures { OnOk result (view.new.items ≡ rotated word view.old.items) }
{
    match word {
        RotWord::Abs(angles) => {
            view.clear();
            view.push(Turn {
                absolute: true,
                angles,
            })?;
        }
        RotWord::Rel(angles) => {
            view.clear();
            view.push(Turn {
                absolute: false,
                angles,
            })?;
        }
        RotWord::Add(angles) => add_turn(
            view,
            Turn {
                absolute: false,
                angles,
            },
        )?,
        RotWord::End => view.clear(),
    }
    Ok(())
}

// One turn more; where there are as many as a view has, the oldest goes first.
fn add_turn(view: &mut Vec<Turn>, turn: Turn) -> Result<(), AllocError>
    ensures { OnOk result (view.new.items ≡ one_more view.old.items turn) }
{
    if MOST_TURNS <= view.len() {
        view.remove(0);
    }
    view.push(turn)?;
    Ok(())
}
