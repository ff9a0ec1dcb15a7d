// Why a basic or a service sheet is refused.

#[derive(Clone, Copy, PartialEq, Eq, Debug)]
pub enum Refusal {
    // A number names nothing; the offset of the field that has it, in bytes.
    Unnamed { at: usize },
    // Event-free transitions form a circle; the lowest state that cannot be worked.
    Circle { state: usize },
    // A reduced list has more than 16 entries; its state, or 256 + its event.
    TooLong { place: usize },
}
