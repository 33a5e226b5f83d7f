//! Numerals in ASCII digits.
ghost use Rattle.std.specs.Prelude.{◌<◌, ◌^◌, ◌↔◌, ℕ, IsTrue, MatchOption};
ghost use Rattle.std.specs.Char.{IsAsciiDigit};
ghost use Rattle.std.specs.List.{AllByRecursion};
ghost use Rattle.bag_tags.specs.Numerals.{IsNumeral};

/// The value of one or more ASCII digits, if it is below 2^64. Leading zeros are accepted.
pub(crate) fn read_number(text: &[u8]) -> Option<u64>
    ensures { MatchOption result ((n : ℕ) → IsNumeral text.now n → n < 2 ^ 64 → ⊥)
        (λ n. IsNumeral text.now n) }
{
    if text.is_empty() || !are_digits(text) {
        return None;
    }
    str::from_utf8(text).ok()?.parse().ok()
}

fn are_digits(text: &[u8]) -> bool
    ensures { IsTrue result ↔ AllByRecursion IsAsciiDigit text.now }
{
    text.iter().all(|octet| octet.is_ascii_digit())
}
