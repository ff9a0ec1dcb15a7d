// Sheets of composites of two instances of block 0, byte by byte.

// From outside to event 0 of instance 0, from its output 0 to event 0 of instance 1, and back by another event, which goes outside.
pub(crate) const FEEDBACK: [u8; 42] = [
    1, 0, 3, 3, 1, 1, 6, 0, 1, 0, 6, 0, 1, 0, 7, 0, 4, 255, 0, 0, 0, 7, 0, 4, 0, 0, 1, 0, 7, 0, 4,
    1, 0, 0, 1, 7, 0, 4, 0, 1, 255, 0,
];

// The same, back by the same event.
pub(crate) const CIRCLE: [u8; 42] = [
    1, 0, 3, 3, 1, 1, 6, 0, 1, 0, 6, 0, 1, 0, 7, 0, 4, 255, 0, 0, 0, 7, 0, 4, 0, 0, 1, 0, 7, 0, 4,
    1, 0, 0, 0, 7, 0, 4, 0, 1, 255, 0,
];

// From output 0 of instance 0 to its own event 1, whose output goes outside.
pub(crate) const SELF_LOOP: [u8; 31] = [
    1, 0, 3, 3, 1, 1, 6, 0, 1, 0, 7, 0, 4, 255, 0, 0, 0, 7, 0, 4, 0, 0, 0, 1, 7, 0, 4, 0, 1, 255, 0,
];

// From output 1 of instance 0, which no entry for event 0 counts, to event 0.
pub(crate) const UNCOUNTED: [u8; 24] = [
    1, 0, 3, 3, 1, 1, 6, 0, 1, 0, 7, 0, 4, 255, 0, 0, 0, 7, 0, 4, 0, 1, 0, 0,
];

// From outside to event 0 of instance 0, from its output 0 to event 1 of instance 1, whose output 0 goes outside.
pub(crate) const MANY: [u8; 35] = [
    1, 0, 3, 3, 1, 1, 6, 0, 1, 0, 6, 0, 1, 0, 7, 0, 4, 255, 0, 0, 0, 7, 0, 4, 0, 0, 1, 1, 7, 0, 4,
    1, 0, 255, 0,
];
