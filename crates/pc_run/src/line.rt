ghost use Rattle.std.specs.Prelude.{◌≡◌, IfOk, string_bytes};
ghost use Rattle.pc_run.specs.Replies.{verdict_line};
ghost use Rattle.pc_run.specs.Reports.{usage_line};

use pc_check::Verdict;
use std::alloc::{AllocError, Global};

/// The line that tells which words are a command.
pub(crate) fn usage_line(alloc: Global) -> Result<String, AllocError>
    ensures { IfOk result (λ text. string_bytes text ≡ usage_line) }
{
    String::from_str(
        alloc,
        "usage: pc bound|prove [--nodes N] SCHEMA ROWS CONSTRAINTS QUERY... | pc check SCHEMA ROWS CONSTRAINTS DOCUMENT | pc show SCHEMA CONSTRAINTS | pc gen SEED SIZE | pc conflict [--nodes N] SCHEMA CONSTRAINTS | pc quantile [--nodes N] SCHEMA ROWS CONSTRAINTS QUERY | pc session [--nodes N] SCHEMA ROWS CONSTRAINTS SCRIPT\n",
    )
}

/// The line that says what the verdict on a document is.
pub(crate) fn verdict_line(alloc: Global, verdict: Verdict) -> Result<String, AllocError>
    ensures { IfOk result (λ text. string_bytes text ≡ verdict_line verdict) }
{
    match verdict {
        Verdict::Yes => String::from_str(alloc, "yes\n"),
        Verdict::No { line, rule } => format!(in alloc; "no line {line} rule {rule}\n"),
    }
}
