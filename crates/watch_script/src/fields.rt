//! The parts of a script's line, which marks part.

ghost use Rattle.std.specs.Prelude.{◌≡◌, ◌==◌, ◌<◌, length, None, Some, IfSome, MatchOption};
ghost use Rattle.std.specs.List.{position};
ghost use Rattle.watch_script.specs.Reading.{at_place, split_at};

/// The index of the first mark.
fn place(bytes: &[u8], mark: u8) -> Option<usize>
    ensures within { IfSome result (λ i. i < length bytes.now) }
    ensures value { result ≡ position (λ x. x == mark) bytes.now }
{
    bytes.iter().position(|b| *b == mark)
}

/// What stands before and behind the first mark. `None` comes exactly where there is no mark.
#[tactic(auto, unfolding(crate::specs::Reading::split_at))]
pub(crate) fn split(bytes: &[u8], mark: u8) -> Option<(&[u8], &[u8])>
    ensures { MatchOption result (split_at mark bytes.now ≡ None)
        (λ p. split_at mark bytes.now ≡ Some (p.0.now, p.1.now)) }
{
    match place(bytes, mark) {
        Some(i) => Some((&bytes[..i], &bytes[i + 1..])),
        None => None,
    }
}
