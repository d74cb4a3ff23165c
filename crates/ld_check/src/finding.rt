ghost use Rattle.std.specs.Prelude.{◌≡◌, ◌++◌, OnOk};
ghost use Rattle.ld_check.specs.Findings.{found};

use std::alloc::AllocError;

/// A rule that holds at a line.
#[derive(Clone, Copy, Debug, PartialEq, Eq)]
pub struct Finding {
    /// The line's number, from 1.
    pub line: u32,
    /// The rule's number.
    pub rule: u16,
}

// Appends the finding, if the rule holds.
pub(crate) fn note(
    line: u32,
    rule: u16,
    holds: bool,
    into: &mut Vec<Finding>,
) -> Result<(), AllocError>
    ensures { OnOk result (into.new.items ≡ into.old.items ++ found line (rule, holds)) }
{
    if holds {
        into.push(Finding { line, rule })?;
    }
    Ok(())
}
