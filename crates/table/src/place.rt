// Where a name stands in a text: its first byte, counted from 0, and how many bytes it has.
#[derive(Clone, Copy, PartialEq, Eq, Debug, Default)]
pub struct Place {
    pub start: usize,
    pub length: usize,
}
