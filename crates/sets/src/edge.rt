// A cover edge of the lattice: the places of its lower and its upper end in the tray of closed sets.
#[derive(Clone, Copy, PartialEq, Eq, Default, Debug)]
pub struct Edge {
    pub lower: usize,
    pub upper: usize,
}
