ghost use Rattle.std.specs.Prelude.{◌≡◌, reverse};
ghost use Rattle.pc_rows.specs.RowFile.{after_spaces, number_within, without_spaces};

use pc_model::{Reason, is_between, read_number};

// A number at this scale, in the domain.
pub(crate) fn read_within(scale: u8, low: i64, high: i64, text: &[u8]) -> Result<i64, Reason>
    ensures { result ≡ number_within scale low high text.now }
{
    let number = read_number(without_spaces(text), scale)?;
    if !is_between(low, high, number) {
        return Err(Reason::OutsideDomain);
    }
    Ok(number)
}

// Spaces alone: a tab is part of the text.
fn without_spaces(text: &[u8]) -> &[u8]
    ensures { result.now ≡ without_spaces text.now }
{
    before_spaces(after_spaces(text))
}

#[tactic(auto, unfolding(crate::specs::RowFile::after_spaces))]
fn after_spaces(mut text: &[u8]) -> &[u8]
    ensures { result.now ≡ after_spaces text.entry.now }
{
    while let [b' ', rest @ ..] = text {
        text = rest;
    }
    text
}

#[tactic(auto, unfolding(crate::specs::RowFile::after_spaces))]
fn before_spaces(mut text: &[u8]) -> &[u8]
    ensures { result.now ≡ reverse (after_spaces (reverse text.entry.now)) }
{
    while let [rest @ .., b' '] = text {
        text = rest;
    }
    text
}
