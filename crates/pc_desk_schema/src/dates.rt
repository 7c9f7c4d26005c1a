ghost use Rattle.std.specs.Prelude.{◌≡◌, Some, None, IfSome, option_map};
ghost use Rattle.pc_desk_schema.specs.Dates.{after_marks, fits_mark, is_date, parts_time};

/// Whether a field is a date, alone or in front of a time.
#[tactic(auto, unfolding(crate::specs::Dates::is_date))]
pub(crate) fn is_date(text: &[u8]) -> bool
    ensures { result ≡ is_date text.now }
{
    match after_marks(b"0000-00-00", text) {
        Some(rest) => parts_time(rest),
        None => false,
    }
}

// What stands behind the bytes that fit the marks.
#[tactic(auto, unfolding(crate::specs::Dates::after_marks))]
fn after_marks<'a>(mut marks: &[u8], mut text: &'a [u8]) -> Option<&'a [u8]>
    ensures { option_map (λ rest. rest.now) result ≡ after_marks marks.entry.now text.entry.now }
{
    while let [mark, marks_left @ ..] = marks {
        let [byte, text_left @ ..] = text else {
            return None;
        };
        if !fits_mark(*mark, *byte) {
            return None;
        }
        marks = marks_left;
        text = text_left;
    }
    Some(text)
}

fn fits_mark(mark: u8, byte: u8) -> bool
    ensures { result ≡ fits_mark mark byte }
{
    if mark == b'0' {
        return byte.is_ascii_digit();
    }
    byte == mark
}

fn parts_time(text: &[u8]) -> bool
    ensures { result ≡ parts_time text.now }
{
    match text {
        [] => true,
        [byte, ..] => *byte == b' ' || *byte == b'T',
    }
}
