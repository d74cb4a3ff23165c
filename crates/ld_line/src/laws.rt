ghost use Rattle.ld_line.specs.Word.{FieldsOfWords, LinesOfTexts};
ghost use Rattle.ld_line.specs.Printing.{ColoursAgain, DrawnAgain, StepsAgain};

use ld_num::print_law;

/// Words with blanks between them are the fields of their line.
pub fn fields_law()
    ensures { FieldsOfWords }
{}

/// Lines that are ended by CR LF are the lines of their text, and no line holds a line feed.
pub fn lines_law()
    ensures { LinesOfTexts }
{}

/// What is printed of a colour is one word, which is read as its number.
pub fn colour_law()
    ensures { ColoursAgain }
{}

/// A printed line of type 2 to 5 is read as what it draws.
pub fn draw_law()
    ensures { DrawnAgain }
{
    print_law();
}

/// Printed steps and statements of back face culling are read as those.
pub fn step_law()
    ensures { StepsAgain }
{
    print_law();
}
