// How many bytes an amount takes: 1 to 8, so that no other number can be handed over.
ghost use Rattle.std.specs.Prelude.{◌≡◌, ◌≤◌, MatchOption};

#[derive(Clone, Copy)]
pub struct Width {
    pub bytes: usize,
    ghost some: { 1 ≤ bytes },
    ghost few: { bytes ≤ 8 },
}

impl Width {
    // The width of so many bytes; none outside 1 to 8.
    pub fn new(bytes: usize) -> Option<Width>
        ensures { MatchOption result (1 ≤ bytes → bytes ≤ 8 → ⊥) (λ w. w.bytes ≡ bytes) }
    {
        if 1 <= bytes && bytes <= 8 {
            Some(Width { bytes })
        } else {
            None
        }
    }
}
