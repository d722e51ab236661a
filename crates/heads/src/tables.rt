// Two tables: the payload sizes of the primitive types, and the readings of the first bytes.

// The mark of the two types whose payload has its length in front.
const PREFIXED: usize = 255;

// Primitive payload sizes by type 0 to 20.
pub const SIZES: [usize; 21] = [
    0, 0, 0, 1, 2, 4, 8, 8, 5, 9, 17, 4, 8, 8, 4, PREFIXED, PREFIXED, 8, 8, 8, 16,
];

// The 256 first bytes, each packed: its kind, which is 0 to 5 in the order of `Reading`, + 8 * its sizes: a payload's
// size; an object's or an array's bits for its count, ids and offsets. What is not here, a type or a short string's size,
// is the first byte / 4. One byte an entry: the table is laid on the stack once for each `Readings::new()`.
pub const READINGS: [u8; 256] = [
    0, 2, 3, 4, 0, 2, 11, 12, 0, 2, 19, 20, 8, 2, 27, 28, 16, 2, 35, 36, 32, 2, 43, 44, 64, 2, 51,
    52, 64, 2, 59, 60, 40, 2, 67, 5, 72, 2, 75, 5, 136, 2, 83, 5, 32, 2, 91, 5, 64, 2, 99, 5, 64,
    2, 107, 5, 32, 2, 115, 5, 1, 2, 123, 5, 1, 2, 131, 5, 64, 2, 139, 5, 64, 2, 147, 5, 64, 2, 155,
    5, 128, 2, 163, 5, 5, 2, 171, 5, 5, 2, 179, 5, 5, 2, 187, 5, 5, 2, 195, 5, 5, 2, 203, 5, 5, 2,
    211, 5, 5, 2, 219, 5, 5, 2, 227, 5, 5, 2, 235, 5, 5, 2, 243, 5, 5, 2, 251, 5, 5, 2, 5, 5, 5, 2,
    5, 5, 5, 2, 5, 5, 5, 2, 5, 5, 5, 2, 5, 5, 5, 2, 5, 5, 5, 2, 5, 5, 5, 2, 5, 5, 5, 2, 5, 5, 5, 2,
    5, 5, 5, 2, 5, 5, 5, 2, 5, 5, 5, 2, 5, 5, 5, 2, 5, 5, 5, 2, 5, 5, 5, 2, 5, 5, 5, 2, 5, 5, 5, 2,
    5, 5, 5, 2, 5, 5, 5, 2, 5, 5, 5, 2, 5, 5, 5, 2, 5, 5, 5, 2, 5, 5, 5, 2, 5, 5, 5, 2, 5, 5, 5, 2,
    5, 5, 5, 2, 5, 5, 5, 2, 5, 5, 5, 2, 5, 5, 5, 2, 5, 5, 5, 2, 5, 5, 5, 2, 5, 5,
];
