ghost use Rattle.std.specs.Prelude.{◌≡◌, ◌++◌, OnOk};
ghost use Rattle.pc_desk_draw.specs.Escapes.{ends_noncharacter, escaped, escaped_byte, escaped_one, escaped_other, is_control};

use pc_num::Memory;

/// Appends a text in UTF-8 as it stands in XML.
#[tactic(auto, using(crate::proofs::Escaping::steps))]
pub(crate) fn put_escaped(out: &mut Vec<u8>, text: &[u8]) -> Result<(), Memory>
    ensures { OnOk result (out.new.items ≡ out.old.items ++ escaped text.now) }
{
    let mut first = 0;
    let mut second = 0;
    for byte in text {
        put_byte(out, first, second, *byte)?;
        first = second;
        second = *byte;
    }
    Ok(())
}

fn put_byte(out: &mut Vec<u8>, first: u8, second: u8, byte: u8) -> Result<(), Memory>
    ensures { OnOk result (out.new.items ≡ out.old.items ++ escaped_byte first second byte) }
{
    if ends_noncharacter(first, second, byte) {
        out.push(0xBD)?;
        return Ok(());
    }
    put_one(out, byte)
}

// U+FFFE and U+FFFF are allowed nowhere.
fn ends_noncharacter(first: u8, second: u8, byte: u8) -> bool
    ensures { result ≡ ends_noncharacter first second byte }
{
    first == 0xEF && second == 0xBF && (byte == 0xBE || byte == 0xBF)
}

fn put_one(out: &mut Vec<u8>, byte: u8) -> Result<(), Memory>
    ensures { OnOk result (out.new.items ≡ out.old.items ++ escaped_one byte) }
{
    match byte {
        b'&' => put(out, b"&amp;".as_slice()),
        b'<' => put(out, b"&lt;".as_slice()),
        b'>' => put(out, b"&gt;".as_slice()),
        b'"' => put(out, b"&quot;".as_slice()),
        b'\'' => put(out, b"&apos;".as_slice()),
        _ => put_other(out, byte),
    }
}

fn put_other(out: &mut Vec<u8>, byte: u8) -> Result<(), Memory>
    ensures { OnOk result (out.new.items ≡ out.old.items ++ escaped_other byte) }
{
    if is_control(byte) {
        return put(out, "\u{FFFD}".as_bytes());
    }
    out.push(byte)?;
    Ok(())
}

fn is_control(byte: u8) -> bool
    ensures { result ≡ is_control byte }
{
    byte < 32 && !(byte == b'\t' || byte == b'\n' || byte == b'\r')
}

/// Appends bytes as they are.
pub(crate) fn put(out: &mut Vec<u8>, bytes: &[u8]) -> Result<(), Memory>
    ensures { OnOk result (out.new.items ≡ out.old.items ++ bytes.now) }
{
    out.extend_from_slice(bytes)?;
    Ok(())
}
