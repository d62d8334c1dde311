ghost use Rattle.std.specs.Prelude.{◌+◌, ◌≤◌, length};

mod calls;

// A line of a text: its number, where its first byte stands, and its bytes without the line feed.
#[derive(Clone, Copy)]
pub(crate) struct Line<'t> {
    pub number: usize,
    pub start: usize,
    pub bytes: &'t [u8],
}

// The lines of a text that are not taken yet: the number of the first of them, and where it begins.
#[derive(Drop)]
pub(crate) struct Lines<'t> {
    text: &'t [u8],
    line: usize,
    at: usize,
    ghost counted: { line ≤ at + 1 },
    ghost inside: { at ≤ length text.now },
}
