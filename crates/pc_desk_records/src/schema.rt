ghost use Rattle.std.specs.Prelude.{◌≡◌, IfOk};
ghost use Rattle.pc_desk_records.specs.SchemaTexts.{count_text, decimals_text, field_text, halt_text, limit_text, record_text, schema_text, told_text, want_text, wanted_text};
ghost use Rattle.pc_schema.specs.declared.halt.Wanted.TheVariants as wants;

use crate::front::front_text;
use crate::rows::text_in;
use crate::texts::{counted, shown_after};
use pc_model::Reason;
use pc_num::Memory;
use pc_schema::{Halt, SchemaTold, Wanted, tell_schema};
use std::alloc::Global;

/// What is told of a schema file that is refused, behind the number of its record: the line on which that begins, the field
/// at which its reader stopped, and what may stand there. Of a fault that is no record's nothing is told.
#[tactic(auto, unfolding(crate::specs::SchemaTexts::schema_text))]
pub fn tell_of_schema(alloc: Global, schema: &[u8]) -> Result<Vec<u8>, Memory>
    ensures { IfOk result (λ text. text.items ≡ schema_text schema.now) }
{
    match tell_schema(alloc, schema)? {
        Some(told) => record_text(alloc, text_in(schema), &told),
        None => Ok(Vec::new(alloc)),
    }
}

#[tactic(auto, unfolding(crate::specs::SchemaTexts::record_text))]
fn record_text(alloc: Global, text: &[u8], told: &SchemaTold) -> Result<Vec<u8>, Memory>
    ensures { IfOk result (λ out. out.items ≡ record_text text.now told.now) }
{
    let mut out = front_text(alloc, told.place, text)?;
    let halt = halt_text(alloc, told.field.as_slice(), told.halt)?;
    out.extend_from_slice(halt.as_slice())?;
    out.push(b'\n')?;
    Ok(out)
}

fn halt_text(alloc: Global, field: &[u8], halt: Halt) -> Result<Vec<u8>, Memory>
    ensures { IfOk result (λ text. text.items ≡ halt_text field.now halt) }
{
    match halt {
        Halt::Room => Ok(Vec::from_slice(alloc, b"a schema has 12 columns at most".as_slice())?),
        Halt::Count { fields, .. } => count_text(alloc, fields),
        Halt::Field {
            place,
            wanted,
            reason,
        } => field_text(alloc, place, reason, wanted, field),
    }
}

fn count_text(alloc: Global, fields: usize) -> Result<Vec<u8>, Memory>
    ensures { IfOk result (λ text. text.items ≡ count_text fields) }
{
    let mut text = counted(
        alloc,
        fields as u64,
        b" field".as_slice(),
        b" fields".as_slice(),
    )?;
    text.extend_from_slice(b": int has 4, dec has 5, cat has 3 to 130".as_slice())?;
    Ok(text)
}

fn field_text(
    alloc: Global,
    place: usize,
    reason: Reason,
    wanted: Wanted,
    field: &[u8],
) -> Result<Vec<u8>, Memory>
    ensures { IfOk result (λ text. text.items ≡ field_text place reason wanted field.now) }
{
    let number = u128::from(place as u64) + 1;
    let mut text = format!(in alloc; "field {number}")?.into_bytes();
    let value = shown_after(alloc, b" is ".as_slice(), field)?;
    text.extend_from_slice(value.as_slice())?;
    let want = want_text(alloc, reason, wanted)?;
    text.extend_from_slice(want.as_slice())?;
    Ok(text)
}

fn want_text(alloc: Global, reason: Reason, wanted: Wanted) -> Result<Vec<u8>, Memory>
    ensures { IfOk result (λ text. text.items ≡ want_text reason wanted) }
{
    match reason {
        Reason::RepeatedName => Ok(Vec::from_slice(
            alloc,
            b", which stands before already".as_slice(),
        )?),
        Reason::EmptySpan => Ok(Vec::from_slice(
            alloc,
            b", which is below the number before it".as_slice(),
        )?),
        Reason::PastLimit => limit_text(alloc, wanted),
        Reason::TooManyDecimals => decimals_text(alloc, wanted),
        _ => wanted_text(alloc, wanted),
    }
}

fn limit_text(alloc: Global, wanted: Wanted) -> Result<Vec<u8>, Memory>
    ensures { IfOk result (λ text. text.items ≡ limit_text wanted) }
{
    match wanted {
        Wanted::Number { scale } => number_limit(alloc, scale),
        _ => wanted_text(alloc, wanted),
    }
}

fn number_limit(alloc: Global, scale: u8) -> Result<Vec<u8>, Memory>
    ensures { IfOk result (λ text. text.items ≡ limit_text (wants.Number scale)) }
{
    Ok(format!(in alloc;
        ": a number of at most 1000000000000000 is to stand there, without the point of its {scale} decimals"
    )?.into_bytes())
}

fn decimals_text(alloc: Global, wanted: Wanted) -> Result<Vec<u8>, Memory>
    ensures { IfOk result (λ text. text.items ≡ decimals_text wanted) }
{
    match wanted {
        Wanted::Number { scale } => number_decimals(alloc, scale),
        _ => wanted_text(alloc, wanted),
    }
}

fn number_decimals(alloc: Global, scale: u8) -> Result<Vec<u8>, Memory>
    ensures { IfOk result (λ text. text.items ≡ decimals_text (wants.Number scale)) }
{
    Ok(format!(in alloc;
        ": a number with {scale} decimals at most is to stand there"
    )?.into_bytes())
}

fn wanted_text(alloc: Global, wanted: Wanted) -> Result<Vec<u8>, Memory>
    ensures { IfOk result (λ text. text.items ≡ wanted_text wanted) }
{
    let words: &[u8] = match wanted {
        Wanted::Name => {
            b": a name of 1 to 64 bytes, without control characters, is to stand there".as_slice()
        }
        Wanted::Kind => b", and there may stand int, dec or cat".as_slice(),
        Wanted::Scale => b": a scale of 0 to 6 decimals is to stand there".as_slice(),
        Wanted::Number { .. } => b": a number is to stand there".as_slice(),
    };
    Ok(Vec::from_slice(alloc, words)?)
}
