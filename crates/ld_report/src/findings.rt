ghost use Rattle.std.specs.Prelude.{◌≡◌, ◌++◌, OnErr, OnOk};
ghost use Rattle.ld_report.specs.Extending.{Extends};
ghost use Rattle.ld_report.specs.Findings.{finding_words, findings_text};
ghost use Rattle.ld_report.specs.Pieces.{line_text};

use crate::pieces::print_number;
use crate::undoing::or_undone;
use ld_check::Finding;
use std::alloc::AllocError;

/// Appends findings, a line `LINE RULE` for each, in this project's own words.
///
/// # Errors
///
/// Want of memory. The text is then as before.
pub fn print_findings(findings: &[Finding], into: &mut Vec<u8>) -> Result<(), AllocError>
    ensures ok { OnOk result (into.new.items ≡ into.old.items ++ findings_text findings.now) }
    ensures err { OnErr result (into.new.items ≡ into.old.items) }
{
    let length = into.len();
    let outcome = append_findings(findings, into);
    or_undone(outcome, length, into)
}

#[tactic(auto, using(crate::proofs::Extending::extending), unfolding(crate::specs::Findings::findings_text))]
fn append_findings(findings: &[Finding], into: &mut Vec<u8>) -> Result<(), AllocError>
    ensures ok { OnOk result (into.new.items ≡ into.old.items ++ findings_text findings.now) }
    ensures keeps { Extends into.old.items into.new.items }
{
    for finding in findings {
        print_finding(finding, into)?;
    }
    Ok(())
}

#[tactic(auto, using(crate::proofs::Extending::extending))]
fn print_finding(finding: &Finding, into: &mut Vec<u8>) -> Result<(), AllocError>
    ensures ok { OnOk result (into.new.items ≡ into.old.items ++ line_text (finding_words finding.now)) }
    ensures keeps { Extends into.old.items into.new.items }
{
    print_number(u64::from(finding.line), into)?;
    into.push(b' ')?;
    print_number(u64::from(finding.rule), into)?;
    into.push(b'\n')?;
    Ok(())
}
