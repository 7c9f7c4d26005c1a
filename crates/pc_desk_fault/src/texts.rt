ghost use Rattle.std.specs.Prelude.{◌≡◌, IfOk};
ghost use Rattle.pc_desk_fault.specs.Texts.{IsToldFor, is_of_reading};

use crate::meanings::{Form, meaning_told};
use pc_desk_wants::told_of;
use pc_lang_grammar::Want;
use pc_model::Reason;
use pc_num::Memory;
use std::alloc::Global;

/// A text that is refused: what it is, the bytes of its schema, what stands before it in its line, and what it wants first.
#[derive(Clone, Copy, Debug)]
pub(crate) struct Refused<'a> {
    pub form: Form,
    pub schema: &'a [u8],
    pub front: &'a [u8],
    pub text: &'a [u8],
    pub start: Want,
}

/// What is told of a text that is refused for a reason.
pub(crate) fn text_for(
    alloc: Global,
    reason: Reason,
    refused: &Refused<'_>,
) -> Result<Vec<u8>, Memory>
    ensures { IfOk result (λ told. IsToldFor refused.now.form refused.now.schema.now reason refused.now.front.now refused.now.text.now refused.now.start told.items) }
{
    if is_of_reading(reason) {
        return told_of(alloc, refused.front, refused.text, refused.start);
    }
    meaning_told(alloc, refused.form, refused.schema, reason, refused.text)
}

/// Whether a text is refused so before its meaning is asked for.
pub(crate) fn is_of_reading(reason: Reason) -> bool
    ensures { result ≡ is_of_reading reason }
{
    matches!(reason, Reason::BadToken | Reason::Unexpected)
}
