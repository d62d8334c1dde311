ghost use Rattle.std.specs.Prelude.{◌≤◌};
ghost use Rattle.page.specs.Limits.{max_lines};

mod calls;
mod heads;

// The bytes behind a begun page that are set aside for its foot.
pub const FOOT_BYTES: usize = 9;

// The most lines of a page, besides head and foot.
pub const MAX_LINES: usize = 4096;

// A begun page, which must be given its foot: the position in the output behind its last line, and the number of lines behind its head.
pub struct Page {
    at: usize,
    lines: usize,
    ghost few: { lines ≤ max_lines },
}
