ghost use Rattle.ld_bfc.specs.Laws.{QuietLineLaw, StateLaws, WithLaws};

/// What references pass down composes, and the neutral value is its unit.
pub fn with_laws()
    ensures { WithLaws }
{}

/// A line that refers to nothing, draws nothing and states nothing of culling changes no state.
pub fn quiet_line_law()
    ensures { QuietLineLaw }
{}

/// The state before the first line is the starting one, and each line brings the next one.
pub fn state_laws()
    ensures { StateLaws }
{}
