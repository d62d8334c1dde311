mod calls;
mod parts;

// Lent output, and the position behind what was put into it.
#[derive(Drop)]
pub struct Output<'a> {
    bytes: &'a mut [u8],
    at: usize,
}
