ghost use Rattle.ld_texts.specs.EditLaws.{EditLaws, KeepsBlockLines};
ghost use Rattle.ld_texts.specs.Laws.{LearningNumbers, LinesAgree, NumbersAgree, ReadyStays};

use ld_names::file_laws;

/// What is known of a file is what stands at its number.
pub fn number_law()
    ensures { NumbersAgree }
{
    file_laws();
}

/// A line's number is one more than its place in the text.
pub fn line_law()
    ensures { LinesAgree }
{}

/// A file that is learnt gets the next number, and all else stays.
pub fn learning_law()
    ensures { LearningNumbers }
{
    file_laws();
}

/// What is ready stays so as long as the texts stay.
pub fn ready_law()
    ensures { ReadyStays }
{}

/// An edit of known files is that edit of the texts as they stand; it leaves every number and every
/// other file; and what it weighs.
pub fn edit_law()
    ensures { EditLaws }
{
    file_laws();
}

/// An edit leaves each line one that a block may hold: without a line feed, and it neither begins nor
/// ends a block (MPD Language Extension).
pub fn block_law()
    ensures { KeepsBlockLines }
{}
