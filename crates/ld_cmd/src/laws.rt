ghost use Rattle.ld_cmd.specs.Laws.{EndsByFaults, SaysTheSame};

use ld_engine::{first_law, main_law};

/// For words in the grammar, files that are there, a good colour file and no limit that is reached,
/// the output's status is `Done`, or `Faulted` exactly where something is at fault.
pub fn ending_law()
    ensures { EndsByFaults }
{}

/// `faces`, `steps` and `parts` of a file show what a script over it replies whose first command
/// asks the same of its main model, but for the `done` behind an answer.
pub fn query_law()
    ensures { SaysTheSame }
{
    first_law();
    main_law();
}
