ghost use Rattle.ld_mpd.specs.Laws.{BlocksAreNamed, LinesStandInside, SplitOfJoined, TextIgnoresName, TextLinesStandInside, TextNamesDiffer, TextStands, TextsAmongBlocks};

use ld_line::lines_law;
use ld_names::name_law;

/// What holds of the blocks of every file.
pub fn block_laws()
    ensures texts { TextsAmongBlocks }
    ensures stands { TextStands }
    ensures name_ignored { TextIgnoresName }
    ensures inside { LinesStandInside }
    ensures texts_inside { TextLinesStandInside }
    ensures different { TextNamesDiffer }
    ensures named { BlocksAreNamed }
{
    lines_law();
    name_law();
}

/// What is joined is cut into the same blocks.
pub fn join_law()
    ensures { SplitOfJoined }
{
    lines_law();
    name_law();
}
