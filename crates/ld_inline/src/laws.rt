ghost use Rattle.ld_inline.specs.Laws.{AnswersInline};

use ld_entry::{count_law, lawful_law};
use ld_steps::part_law;

/// Every answer to a query of a lawful colour can be inlined, and its text means it: its entries are
/// lawful, and its steps' ranges follow one another and cover them, each view the one before it or
/// that changed by one rotation step.
pub fn answers_law()
    ensures { AnswersInline }
{
    count_law();
    lawful_law();
    part_law();
}
