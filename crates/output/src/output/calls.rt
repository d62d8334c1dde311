ghost use Rattle.std.specs.Prelude.{◌≡◌};
ghost use Rattle.output.specs.Outputs.{Puts};

use super::Output;
use crate::faults::OutputFault;

impl Output<'_> {
    // Puts the bytes behind what was put; where they do not fit, all stays as before.
    pub fn put(&mut self, bytes: &[u8]) -> Result<(), OutputFault>
        ensures puts { Puts bytes.now self.old result self.new }
    {
        if self.at > self.bytes.len() || bytes.len() > self.bytes.len() - self.at {
            return Err(OutputFault::Full);
        }
        let end = self.at + bytes.len();
        self.bytes[self.at..end].copy_from_slice(bytes);
        self.at = end;
        Ok(())
    }
}
