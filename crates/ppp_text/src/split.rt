//! A text in two, at an octet.

ghost use Rattle.std.specs.Prelude.{◌≡◌, ◌≢◌, ◌==◌, position, All, MatchOption};
ghost use Rattle.ppp_text.specs.Split.{IsSplit};

/// What stands before and behind the first octet that is this one. None exactly where there is none.
pub fn split_once(text: &[u8], octet: u8) -> Option<(&[u8], &[u8])>
    ensures { MatchOption result (All (λ x. x ≢ octet) text.now)
        (λ parts. IsSplit octet text.now parts.0.now parts.1.now) }
{
    let end = find(text, octet)?;
    let (before, behind) = text.split_at(end);
    Some((before, &behind[1..]))
}

/// Where the first octet stands that is this one.
fn find(text: &[u8], octet: u8) -> Option<usize>
    ensures { result ≡ position (λ x. x == octet) text.now }
{
    text.iter().position(|x| *x == octet)
}
