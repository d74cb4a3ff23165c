ghost use Rattle.ld_steps.specs.Laws.{PartLaw, StepLaws};

/// Steps follow one another from the first line on, and only lines that show nothing are left behind
/// the last one; each view is the one before, or that changed by one rotation step.
pub fn step_laws()
    ensures { StepLaws }
{}

/// Where only lines that refer or draw give entries, the steps' ranges follow one another and cover
/// the entries.
pub fn part_law()
    ensures { PartLaw }
{}
