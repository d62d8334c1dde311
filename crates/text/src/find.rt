ghost use Rattle.std.specs.Prelude.{◌≡◌, ◌==◌, drop, position};

// Finds where a byte first stands among bytes.
pub fn find(bytes: &[u8], byte: u8) -> Option<usize>
    ensures place { result ≡ position (λ b. b == byte) bytes.now }
{
    bytes.iter().position(|b| *b == byte)
}

// The bytes from position `at` on; none where there are not so many.
pub fn rest_from(bytes: &[u8], at: usize) -> &[u8]
    ensures rest { result.now ≡ drop at bytes.now }
{
    &bytes[at.min(bytes.len())..]
}
