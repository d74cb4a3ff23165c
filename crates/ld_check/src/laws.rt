ghost use Rattle.ld_check.specs.Laws.{NothingBehind};

/// That no rule holds behind the last line of a text and of its header, so that the findings of the
/// lines up to there are all.
pub fn findings_law()
    ensures { NothingBehind }
{}
