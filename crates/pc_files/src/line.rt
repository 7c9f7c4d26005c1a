ghost use Rattle.std.specs.Prelude.{◌≡◌, IfOk, string_bytes};
ghost use Rattle.pc_files.specs.Texts.{fault_line, malformed_line};

use pc_model::{Fault, FileKind};
use std::alloc::{AllocError, Global};

/// The line for a file that could not be read.
pub fn fault_line(alloc: Global, file: FileKind) -> Result<String, AllocError>
    ensures { IfOk result (λ text. string_bytes text ≡ fault_line file) }
{
    let name = file.name();
    format!(in alloc; "read fault: {name}\n")
}

/// The line for a file or a query that is refused.
pub fn malformed_line(alloc: Global, fault: Fault) -> Result<String, AllocError>
    ensures { IfOk result (λ text. string_bytes text ≡ malformed_line fault) }
{
    let file = fault.file.name();
    let place = fault.place;
    let number = fault.reason.number();
    let reason = fault.reason.name();
    format!(in alloc; "malformed {file} at {place}: reason {number} {reason}\n")
}
