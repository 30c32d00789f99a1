// The lines of findings.

ghost use Rattle.std.specs.Prelude.{◌≡◌, IfOk, string_bytes};
ghost use Rattle.package_files.specs.FindingLines.{finding_line, findings_string};

use crate::finding::Finding;
use std::alloc::{AllocError, Global};

// The line of a finding.
fn line_of(alloc: Global, finding: &Finding) -> Result<String, AllocError>
    ensures { IfOk result (λ line. string_bytes line ≡ finding_line finding.now) }
{
    format!(in alloc; "{finding}\n")
}

// rule: Lines of findings
/// Writes a line for each finding, in their order.
pub fn findings_string(alloc: Global, findings: &[Finding]) -> Result<String, AllocError>
    ensures { IfOk result (λ text. string_bytes text ≡ findings_string findings.now) }
{
    let mut text = String::new(alloc);
    for finding in findings {
        let line = line_of(alloc, finding)?;
        text.push_str(line.as_str())?;
    }
    Ok(text)
}
