ghost use Rattle.std.specs.Prelude.{◌≡◌, ◌≤◌, length};

mod calls;

// A field of a line: the byte where it starts, counted from 1, and its bytes.
#[derive(Clone, Copy)]
pub(crate) struct Field<'a> {
    pub byte: usize,
    pub bytes: &'a [u8],
}

// The fields of a line that are still to be read: those behind position `at`.
#[derive(Clone, Copy)]
pub(crate) struct Fields<'a> {
    line: &'a [u8],
    at: usize,
    ghost within: { at ≤ length line.now },
}
