//! Numbers that are written as words.

ghost use Rattle.std.specs.Prelude.{◌≡◌, ◌≤◌, ◌^◌, IfSome, Some, None};
ghost use Rattle.std.specs.List.{list_all};
ghost use Rattle.dk_words.specs.Numbers as numbers;

// Whether each byte is a decimal digit.
fn are_digits(bytes: &[u8]) -> bool
    ensures { result ≡ list_all numbers.is_digit bytes.now }
{
    bytes.iter().all(|byte| 48 <= *byte && *byte <= 57)
}

// The number that the word writes, where it fits; `parse` looks for overflow at each digit.
fn number(word: &str) -> Option<u32>
    ensures some { IfSome result (λ n. numbers.number_of word.now ≡ Some n) }
    ensures none { result ≡ None → IfSome (numbers.number_of word.now) (λ n. 2 ^ 32 ≤ n) }
{
    let bytes = word.as_bytes();
    // `parse` takes a plus too
    if !are_digits(bytes) {
        return None;
    }
    word.parse::<u32>().ok()
}

// The number that the word writes in decimal digits, where it is from `low` to `high`.
pub fn number_within(word: &str, low: u32, high: u32) -> Option<u32>
    ensures { result ≡ numbers.number_within low high word.now }
{
    match number(word) {
        Some(n) if low <= n && n <= high => Some(n),
        _ => None,
    }
}
