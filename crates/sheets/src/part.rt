// One field off the front of some bytes.
ghost use Rattle.std.specs.Prelude.{◌≡◌, [], MatchOption};
ghost use Rattle.sheets.specs.Frames.{field_at, fields, Turn};
ghost use Rattle.sheets.specs.Parts.{raw, shown};

// A field as it stands in the bytes: its tag, and its content as a part of them.
#[derive(Clone, Copy)]
pub struct Part<'a> {
    pub tag: u8,
    pub content: &'a [u8],
}

// The first field and what follows it, or none where the bytes end before it does.
pub fn first<'a>(bytes: &'a [u8]) -> Option<(Part<'a>, &'a [u8])>
    ensures field { shown result ≡ field_at bytes.now }
    ensures turn { MatchOption result (fields bytes.now ≡ []) (λ p. Turn bytes.now (raw p.0) p.1.now) }
{
    let [tag, high, low, rest @ ..] = bytes else {
        return None;
    };
    let len = u16::from_be_bytes([*high, *low]);
    let (content, after) = rest.split_at_checked(usize::from(len))?;
    Some((Part { tag: *tag, content }, after))
}
