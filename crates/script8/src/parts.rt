//! What stands between the marks of a text.
ghost use Rattle.std.specs.Prelude.{◌≡◌, ◌≤◌, ◌<◌, IfSome, if◌then◌else◌, [], ◌∷◌, true, false, length};
ghost use Rattle.std.specs.List.{position};
ghost use Rattle.script8.specs.CutSteps.{part_of, is_mark};
ghost use Rattle.script8.specs.Lines.{parts_of};

/// The first part of a text, whether it is the last, and what stands after its mark.
pub(crate) fn first_part(text: &[u8], mark: u8) -> (&[u8], bool, &[u8])
    ensures parts { parts_of mark text.now
        ≡ result.0.now ∷ (if result.1 then [] else parts_of mark result.2.now) }
    ensures shorter { result.1 ≡ false → length result.2.now < length text.now }
{
    let (part, rest) = text.split_at(part_length(text, mark));
    match rest {
        [] => (part, true, rest),
        [_, following @ ..] => (part, false, following),
    }
}

/// How many bytes stand before the first mark of a text.
#[tactic(auto, using(crate::proofs::LineLemmas::before_mark))]
fn part_length(text: &[u8], mark: u8) -> usize
    ensures place { result ≡ length (part_of mark text.now) }
    ensures range { result ≤ length text.now }
{
    mark_in(text, mark).unwrap_or(text.len())
}

/// The place of the first mark of a text.
fn mark_in(text: &[u8], mark: u8) -> Option<usize>
    ensures place { result ≡ position (is_mark mark) text.now }
    ensures range { IfSome result (λ place. place < length text.now) }
{
    text.iter().position(|byte| *byte == mark)
}
