// Counts: how often each of eight outputs is sent, each 0 to 255; 255 stands for 255 or more.
ghost use Rattle.std.specs.Prelude.{◌≡◌, ℕ, ◌<◌, length, slice_index};

#[derive(Clone, Copy, PartialEq, Eq, Debug)]
pub struct Counts {
    pub at: [u8; 8],
    ghost eight: { length at ≡ 8 },
    ghost bytes: { (k : ℕ) → slice_index at k < 256 },
}
