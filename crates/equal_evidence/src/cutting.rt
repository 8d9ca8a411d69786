// Cutting a text at its first line.
ghost use Rattle.std.specs.Prelude.{◌≡◌, ◌++◌, ◌∷◌, IfSome, None};
ghost use Rattle.equal_evidence.specs.Inner.Ends.{IsEnd};
ghost use Rattle.journal_text.specs.Pieces.{HasNo};

// The place of the first LF, or the length where there is none.
fn line_end(text: &[u8]) -> usize
    ensures { IsEnd text.now result }
{
    for place in 0..text.len() {
        if text[place] == b'\n' {
            return place;
        }
    }
    text.len()
}

/// The first line and what is behind its LF, or None where there is no LF.
pub(crate) fn first_line(text: &[u8]) -> Option<(&[u8], &[u8])>
    ensures cut { IfSome result (λ p. text.now ≡ p.0.now ++ 10 ∷ p.1.now) }
    ensures whole { IfSome result (λ p. HasNo 10 p.0.now) }
    ensures none { result ≡ None → HasNo 10 text.now }
{
    let end = line_end(text);
    if end == text.len() {
        return None;
    }
    Some((&text[..end], &text[end + 1..]))
}
