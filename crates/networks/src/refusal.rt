// Why a composite block is turned down.
#[derive(Clone, Copy, PartialEq, Eq, Debug)]
pub enum Refusal {
    // a connection's instance or port names nothing; `at` is the offset of its field in the sheet, in bytes
    Unnamed { at: usize },
    // a connection that stands in the sheet before; `at` is the offset of its field, in bytes
    Repeated { at: usize },
    // leading forms a circle; the lowest place that cannot be worked, 8 * instance + event
    Circle { place: usize },
    // a card entry counts 255 at a connected output; the lowest place with one
    Full { place: usize },
    // a reduced list above 16; the first place in working order, or 256 + event for the block's own
    TooLong { place: usize },
}
