ghost use Rattle.std.specs.Prelude.{◌≡◌, ◌≤◌, IfSome};
ghost use Rattle.std.specs.Char.{is_ascii_digit};
ghost use Rattle.std.specs.List.{list_all};
ghost use Rattle.pc_run_words.specs.Words.{number_of};

/// The number that a word of digits alone spells, from a least one to a greatest one. Zeros may
/// lead it, so that its length says nothing.
#[tactic(auto, unfolding(crate::specs::Words::number_of))]
pub(crate) fn number_of(least: u32, most: u32, word: &str) -> Option<u32>
    ensures spells { result ≡ number_of least most word.now }
    ensures within { IfSome result (λ number. (least ≤ number) × (number ≤ most)) }
{
    if !are_digits(word.as_bytes()) {
        return None;
    }
    let Ok(number) = word.parse::<u32>() else {
        return None;
    };
    if number < least || most < number {
        return None;
    }
    Some(number)
}

fn are_digits(word: &[u8]) -> bool
    ensures { result ≡ list_all is_ascii_digit word.now }
{
    word.iter().all(|byte| byte.is_ascii_digit())
}
