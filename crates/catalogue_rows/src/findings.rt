// A catalogue of two apps, whose packages are repeated letters `a`.

use crate::shelf::RowFolder;
use catalogue::Catalogue;
use fixtures::catalogue_of_profile;
use package_files::{Finding, compare};
use std::alloc::{AllocError, Global};

const PROFILE: &str = r#"schema = 1
mirror = [{ name = "m0", codebase = "http://m0.example/p/", budget = 1 }]

[[app]]
id = "first"
default = "stable"
release = [
    { version = "2.0", name = "a-2.bin", size = 65536, sha256 = "bf718b6f653bebc184e1479f1935b8da974d701b893afcf49e701f3e2f9f9c5a" },
    { version = "1.0", name = "a-1.bin", size = 10, sha256 = "bf2cb58a68f684d95a3b78ef8f661c9a4e5b09e82cc8f9cc88cce90528caeb27" },
    { version = "3.0", name = "a-3.bin", size = 65537, sha256 = "008ffc88d3c96a9f307524eb361e47c5222a887fc45fa0c1fb8d429c5c23b430" },
]
diff = [
    { from = "1.0", to = "2.0", name = "a-1-2.bin", size = 3, sha256 = "9834876dcfb05cb167a5c24953eba58c4ac89b1adf57f28f2f9d09af107ee8f0" },
]

[[app]]
id = "second"
default = "stable"
release = [
    { version = "1.0", name = "b-1.bin", size = 1, sha256 = "ca978112ca1bbdcafac231b39a23dc4da786eff8147c4e72b9807785afee48bb" },
]
"#;

// The findings, a `;` after each.
fn push_findings(line: &mut String, findings: &[Finding]) -> Result<(), AllocError> {
    for finding in findings {
        write!(line, "{finding};")?;
    }
    Ok(())
}

fn print_found(
    alloc: Global,
    catalogue: &Catalogue,
    packages: &RowFolder,
) -> Result<String, AllocError> {
    let findings = compare(alloc, catalogue.apps(), packages)?;
    let mut line = String::new(alloc);
    push_findings(&mut line, findings.as_slice())?;
    Ok(line)
}

/// The findings of the catalogue's packages, a `;` after each; or `memory` if it ran out.
pub(crate) fn print_findings(alloc: Global, packages: &RowFolder) -> Option<String> {
    let catalogue = catalogue_of_profile(alloc, PROFILE)?;
    match print_found(alloc, catalogue, packages) {
        Ok(line) => Some(line),
        Err(_) => String::from_str(alloc, "memory").ok(),
    }
}
