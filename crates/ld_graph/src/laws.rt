ghost use Rattle.ld_graph.specs.AgreeingLaws.{CleanTextsStay, EditsTurn, ItemsLaws};
ghost use Rattle.ld_graph.specs.Laws.{DirtIsLeast, DirtIsOne, HeightsAreOne, HeightsRise, OthersStay};

use ld_names::{file_laws, lookup_law};
use ld_texts::{edit_law, learning_law, number_law};

/// What meets the local equations is the height.
pub fn height_law()
    ensures { HeightsAreOne }
{}

/// The dirt of a change by the walks after it alone; that it is the least set that has the touched texts
/// and is closed under references; and that outside it all is as before.
pub fn dirt_law()
    ensures one { DirtIsOne }
    ensures least { DirtIsLeast }
    ensures others { OthersStay }
{
    file_laws();
}

/// Where more is known no height falls.
pub fn rise_law()
    ensures { HeightsRise }
{
    file_laws();
}

/// What the items that known texts give a graph say of the texts, and what a change of the texts changes of
/// them.
pub fn items_law()
    ensures { ItemsLaws }
{
    number_law();
    learning_law();
}

/// A text outside the dirt of an edit is the same, and its names find the same, outside the dirt too.
pub fn clean_law()
    ensures { CleanTextsStay }
{
    number_law();
    file_laws();
    lookup_law();
    edit_law();
    items_law();
    dirt_law();
}

/// The files that an edit turned are those of which its change says that they appeared or went.
pub fn turned_law()
    ensures { EditsTurn }
{
    number_law();
    file_laws();
    edit_law();
    items_law();
}
