ghost use Rattle.std.specs.Prelude.{◌≡◌, ◌++◌, IfOk};
ghost use Rattle.pc_desk_table.specs.Lines.{padded, spaces};

use pc_num::Memory;

/// Adds a text at the end of a line.
pub(crate) fn with_text(line: Vec<u8>, text: &str) -> Result<Vec<u8>, Memory>
    ensures { IfOk result (λ new. new.items ≡ line.items ++ text.now) }
{
    let mut line = line;
    line.extend_from_slice(text.as_bytes())?;
    Ok(line)
}

/// .. with so many spaces at the side that it does not stand at.
pub(crate) fn with_padded(
    line: Vec<u8>,
    right: bool,
    room: usize,
    text: &str,
) -> Result<Vec<u8>, Memory>
    ensures { IfOk result (λ new. new.items ≡ line.items ++ padded right room text.now) }
{
    if right {
        let line = with_spaces(line, room)?;
        return with_text(line, text);
    }
    let line = with_text(line, text)?;
    with_spaces(line, room)
}

#[tactic(auto, using(std::proofs::lemmas::List::replicate_more))]
fn with_spaces(line: Vec<u8>, room: usize) -> Result<Vec<u8>, Memory>
    ensures { IfOk result (λ new. new.items ≡ line.items ++ spaces room) }
{
    let mut line = line;
    for place in 0..room {
        line.push(b' ')?;
    }
    Ok(line)
}
