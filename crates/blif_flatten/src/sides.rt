// The two sides of a word.
ghost use Rattle.std.specs.Prelude.{◌≡◌, None, Some, IfSome};
ghost use Rattle.blif_flatten.specs.Calls.{sides_at};

/// What stands before the first such byte of a word, and what stands behind it.
pub fn sides_of(word: &[u8], byte: u8) -> Option<(&[u8], &[u8])>
    ensures some { IfSome result (λ p. sides_at byte word.now ≡ Some (p.0.now, p.1.now)) }
    ensures none { result ≡ None → sides_at byte word.now ≡ None }
{
    for (i, b) in word.iter().enumerate() {
        if *b == byte {
            return Some((&word[..i], &word[i + 1..]));
        }
    }
    None
}
