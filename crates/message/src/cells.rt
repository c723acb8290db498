// A message as numbers.

/// How many numbers the cells of a message are: three for each of 24 rows.
pub const NUMBERS: usize = 72;

/// A message: its kind; a cell of three numbers for each attribute of its kind, in table order; and its BoardId. The first number of a cell is 0 if the
/// value is absent. Then follow: of a text its place and its length; of an int its value; of a positive number its millionths and the digits
/// behind its point; of the features their bits 1, 2 and 4.
// Numbers in a row, as C is lent them.
#[derive(Clone, Copy)]
pub struct Message {
    pub kind: u8,
    pub cells: [u64; NUMBERS],
    pub id: [u8; 36],
}
