ghost use Rattle.ld_engine.specs.Laws.{IsFoundUnlessAbsent, LearningStands, MainIsFirst, MainIsThere, StandsForRoots, StepsOfAnswers};

use ld_entry::{count_law, standing_law};
use ld_mpd::block_laws;
use ld_names::{file_laws, known_law, lookup_law};
use ld_steps::part_law;
use ld_texts::{edit_law, learning_law, number_law};

/// Where nothing is wanted for a root, the known texts answer it as the texts as they stand do.
pub fn root_law()
    ensures { StandsForRoots }
{
    number_law();
    standing_law();
}

/// Where nothing is wanted for a root, a name in a text that it reaches is found unless it is absent in
/// every folder: a reference is at fault as missing exactly there.
pub fn missing_law()
    ensures { IsFoundUnlessAbsent }
{
    number_law();
    lookup_law();
}

/// The steps of an answer are at least one, their ranges follow one another and cover its entries,
/// and each view is the one before it, or that changed by one rotation step.
pub fn steps_law()
    ensures { StepsOfAnswers }
{
    count_law();
    part_law();
}

/// Learning leaves the texts as they stand: where a shelf tells its files, what is known once
/// learning has ended, or has stopped, says of every file what stood before.
pub fn learnt_law()
    ensures { LearningStands }
{
    number_law();
    lookup_law();
    known_law();
}

/// A file has a main model. Once the file is loaded it is there, and it stays there, whatever is
/// learnt.
pub fn main_law()
    ensures { MainIsThere }
{
    block_laws();
    file_laws();
    known_law();
}

/// The main model is the first of the known texts, with number 0, and stays so, whatever is learnt;
/// and every number stays, whatever is learnt and edited.
pub fn first_law()
    ensures { MainIsFirst }
{
    block_laws();
    file_laws();
    learning_law();
    edit_law();
}
