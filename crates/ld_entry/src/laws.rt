ghost use Rattle.ld_entry.specs.Laws.{ActionLaw, AgreementLaw, CarryLaws, CountLaw, CutLaws, DepthLaw, EndsLaws, FoundLaw, HeightLaws, LawfulLaw, LineEndsLaw, LineLaws, LinkLaw, LowerLaw, MapsLaw, PartLaw, ReachedLaw, RenamingLaw, ReuseLaw, StandingLaw, TargetLaw, TintLaw, WalkLaws, WayLaw};

use ld_bfc::{state_laws, with_laws};
use ld_colour::{lawful_colours, under_laws};
use ld_names::{file_laws, lookup_law};
use ld_texts::number_law;

/// References act one after another, and nothing above a text changes nothing.
pub fn carry_laws()
    ensures { CarryLaws }
{
    under_laws();
    with_laws();
}

/// What stands further out acts on each outcome alone: below any references a text gives what it
/// gives below nothing, carried through them.
pub fn action_law()
    ensures { ActionLaw }
{
    under_laws();
    with_laws();
}

/// What a text gives below one reference, by its expansion below nothing: the carried entries up to
/// the first that is refused, and then that refusal, or else the end of the expansion.
pub fn link_law()
    ensures { LinkLaw }
{
    under_laws();
    with_laws();
}

/// The answer to a query in a colour is that of the root's expansion in this colour.
pub fn tint_law()
    ensures { TintLaw }
{
    under_laws();
    with_laws();
}

/// What stands behind the first fault or the first entry too many does not count.
pub fn cut_laws()
    ensures { CutLaws }
{}

/// How many entries of an expansion stand up to and with each line.
pub fn ends_laws()
    ensures { EndsLaws }
{}

/// Each line of a text gives what it gives in the state of back face culling before it.
pub fn line_laws()
    ensures { LineLaws }
{
    state_laws();
}

/// The lines that show nothing give no entry of an answer, and the counts of all lines are together
/// the number of its entries.
pub fn count_law()
    ensures { CountLaw }
{}

/// Where there is an answer, the ends of the lines in the root's expansion are the running sums of
/// what the lines give.
pub fn line_ends_law()
    ensures { LineEndsLaw }
{
    under_laws();
    with_laws();
}

/// Where nothing is wanted for a root, the texts that it reaches are a set in which nothing is
/// wanted, with the root in it.
pub fn reached_law()
    ensures { ReachedLaw }
{
    number_law();
}

/// Among known texts, fewer than 64 references lead from a text to the one at which its moves end.
pub fn target_law()
    ensures { TargetLaw }
{
    number_law();
    lookup_law();
    file_laws();
}

/// In a set in which nothing is wanted, the known texts give what the texts as they stand give.
pub fn standing_law()
    ensures { StandingLaw }
{
    lookup_law();
    file_laws();
}

/// A reference to a file that is not on the way, the text itself with it, enters the file while the
/// way has fewer files than the depth, and is too deep where it has as many or more. A file on the
/// way is a cycle at every depth.
pub fn depth_law()
    ensures { DepthLaw }
{
    state_laws();
}

/// Where a text that is no part refers to a part, the entry of the part is of the text at which its
/// moves end. In a part, and of a file that is no part, there is none.
pub fn part_law()
    ensures { PartLaw }
{}

/// What a line's name finds its text refers to, and a walk that ends at a text goes on to that.
pub fn walk_laws()
    ensures { WalkLaws }
{}

/// A text that a reference finds is there.
pub fn found_law()
    ensures { FoundLaw }
{
    lookup_law();
    file_laws();
}

/// The height of a text is how many texts the longest walk from it has, up to a cap. It is one more
/// than the tallest of what the text refers to, and numbers that are so are the heights.
pub fn height_laws()
    ensures { HeightLaws }
{}

/// A text whose height is at most the depth refers to lower ones alone: the order in which
/// expansions may be made.
pub fn lower_law()
    ensures { LowerLaw }
{}

/// Under a way that leads to it, a low text gives what it gives by itself.
pub fn way_law()
    ensures { WayLaw }
{}

/// The expansion of a low text by itself may stand in the place of the text, under any way that
/// leads to it. Up to a cut, what a reference gives that enters it from a text below nothing is the
/// part entry, where one is due, then that expansion carried, then its end.
pub fn reuse_law()
    ensures { ReuseLaw }
{
    under_laws();
    with_laws();
}

/// Texts that agree on a set that no reference leaves give the same there: the same outcomes,
/// answers, expansions and heights.
pub fn agreement_law()
    ensures { AgreementLaw }
{}

/// The texts of two maps that say the same of the files of a set that no reference leaves agree on
/// it, whatever stands elsewhere.
pub fn maps_law()
    ensures { MapsLaw }
{
    file_laws();
}

/// Texts that agree under other numbers give, each by itself, the same with these numbers in the
/// place of theirs.
pub fn renaming_law()
    ensures { RenamingLaw }
{}

/// Below a lawful colour all entries have lawful colours, and zero in the points that are not used.
pub fn lawful_law()
    ensures { LawfulLaw }
{
    lawful_colours();
}
