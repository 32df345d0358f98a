//! Members that lie in two runs: a tuple's lie in one, a dictionary entry's key and value in one each.

ghost use Rattle.std.specs.Prelude.{◌≡◌, ◌==◌, ◌++◌, [], ◌∷◌, length, MatchOption};

/// The first member, and what is then left of both runs.
pub fn next_member<'a, T>(front: &'a [T], back: &'a [T]) -> Option<(&'a T, &'a [T], &'a [T])>
    ensures { MatchOption result (front.now ++ back.now ≡ []) (λ m. front.now ++ back.now ≡ m.0.now ∷ (m.1.now ++ m.2.now)) }
{
    match front.split_first() {
        Some((first, rest)) => Some((first, rest, back)),
        None => match back.split_first() {
            Some((first, rest)) => Some((first, front, rest)),
            None => None,
        },
    }
}

/// No member is left.
pub fn is_end<T>(front: &[T], back: &[T]) -> bool
    ensures { result ≡ (length (front.now ++ back.now) == 0) }
{
    front.is_empty() && back.is_empty()
}
