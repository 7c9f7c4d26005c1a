ghost use Rattle.std.specs.Prelude.{◌≡◌, IfOk};
ghost use Rattle.pc_run.specs.Inputs.{IsCheckable};
ghost use Rattle.pc_run.specs.Replies.{HasVerdict, SaysVerdict, status_of};

use crate::input::Claim;
use crate::line::verdict_line;
use pc_base::Status;
use pc_check::{Verdict, check};
use pc_document::{NoDocument, read_document};
use pc_files::{Observed, Reply};
use pc_list::Seq;
use pc_num::Memory;
use std::alloc::Global;

/// What is said of a document.
pub(crate) fn report_verdict(alloc: Global, claim: &Claim) -> Result<Reply<Status>, Memory>
    requires { IsCheckable claim.now }
    ensures { IfOk result (λ reply. SaysVerdict claim.now reply.status reply.text) }
{
    let verdict = verdict_on(alloc, claim)?;
    Ok(Reply {
        status: status_of(verdict),
        text: Seq::from_vec(verdict_line(alloc, verdict)?.into_bytes()),
    })
}

fn status_of(verdict: Verdict) -> Status
    ensures { result ≡ status_of verdict }
{
    match verdict {
        Verdict::Yes => Status::Done,
        Verdict::No { .. } => Status::SaidNo,
    }
}

/// The verdict on the document that the bytes spell. Where they spell none, the first rule is broken.
fn verdict_on(alloc: Global, claim: &Claim) -> Result<Verdict, Memory>
    requires { IsCheckable claim.now }
    ensures { IfOk result (HasVerdict claim.now) }
{
    let Observed {
        schema,
        rows,
        constraints,
    } = &claim.observed;
    match read_document(alloc, schema, claim.bytes.as_slice()) {
        Ok(document) => check(alloc, schema, rows, constraints.as_slice(), &document),
        Err(NoDocument::Fault { line }) => Ok(Verdict::No { line, rule: 1 }),
        Err(NoDocument::Memory) => Err(Memory),
    }
}
