ghost use Rattle.std.specs.Prelude.{◌≡◌, ◌-◌, length};

use super::Output;

impl<'a> Output<'a> {
    // The output into which bytes are put from position `at` on.
    pub fn new(bytes: &'a mut [u8], at: usize) -> Self
        ensures at { result.at ≡ at }
        ensures bytes { result.bytes.now ≡ bytes.old }
        ensures lent { result.bytes.ghost_name ≡ bytes.entry.ghost_name }
    {
        Output { bytes, at }
    }

    // The position behind what was put.
    pub fn at(&self) -> usize
        ensures value { result ≡ self.now.at }
    {
        self.at
    }

    // The number of bytes that there is room for behind what was put.
    pub fn room(&self) -> usize
        ensures value { result ≡ length self.now.bytes.now - self.now.at }
    {
        let size = self.bytes.len();
        size.saturating_sub(self.at)
    }
}
