ghost use Rattle.ld_cache.specs.GraphLaws.{GraphsAgree};

use ld_entry::{agreement_law, maps_law, target_law};
use ld_graph::{clean_law, items_law};
use ld_names::lookup_law;
use ld_texts::{edit_law, number_law};

/// Heights and targets of a graph that agrees with texts are those of the texts by their lines; and the
/// texts that the dirt of an edit lacks have the same expansions before and after it.
pub fn graph_law()
    ensures { GraphsAgree }
{
    number_law();
    lookup_law();
    edit_law();
    items_law();
    clean_law();
    target_law();
    maps_law();
    agreement_law();
}
