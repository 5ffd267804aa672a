//! Words that are numbers.

ghost use Rattle.std.specs.Prelude.{◌≡◌, ◌≤◌, IfSome};
ghost use Rattle.std.specs.List.{list_all};
ghost use Rattle.command_line.specs.Numbers.{is_digit, is_number, number_within};

fn is_digit(byte: u8) -> bool
    ensures { result ≡ is_digit byte }
{
    b'0' <= byte && byte <= b'9'
}

fn are_digits(word: &[u8]) -> bool
    ensures { result ≡ list_all is_digit word.now }
{
    word.iter().all(|byte| is_digit(*byte))
}

// Whether the word is digits, at least one and at most so many.
fn is_number(word: &[u8], most: usize) -> bool
    ensures { result ≡ is_number most word.now }
{
    !word.is_empty() && word.len() <= most && are_digits(word)
}

/// A number of at most so many digits, within both bounds.
#[tactic(auto, unfolding(crate::specs::Numbers::number_within))]
pub fn number_within(word: &str, digits: usize, least: u64, most: u64) -> Option<u64>
    ensures exact { result ≡ number_within digits least most word.now }
    ensures within { IfSome result (λ n. (least ≤ n) × (n ≤ most)) }
{
    if !is_number(word.as_bytes(), digits) {
        return None;
    }
    let Ok(number) = word.parse::<u64>() else {
        return None;
    };
    if least <= number && number <= most {
        return Some(number);
    }
    None
}
