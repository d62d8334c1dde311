ghost use Rattle.std.specs.Prelude.{◌≡◌, ◌+◌, ◌-◌, ◌^◌, ◌≤◌, length, None, Ok, Some, if◌then◌else◌, nat_lt};
ghost use Rattle.output.specs.Puts.{after_put, put_answer_of};
ghost use Rattle.page.specs.Pages.{at_with, foot, line_answer, lines_with, max_lines, output_with, reserve};
ghost use Rattle.view.specs.Shown.{signal_names};

use super::{FOOT_BYTES, MAX_LINES, Page};
use crate::entry::Entry;
use crate::faults::PageFault;
use output::faults::OutputFault;
use output::output::Output;
use view::table_view::TableView;

impl Page {
    // The position in the output behind the last line.
    pub fn at(&self) -> usize
        ensures value { result ≡ self.now.at }
    {
        self.at
    }

    // The number of lines behind the head.
    pub fn lines(&self) -> usize
        ensures value { result ≡ self.now.lines }
    {
        self.lines
    }

    // Adds the line of an entry at a place of its list; an entry of another width than the view's, and a line that does not fit, leave page and output as before.
    pub fn line<E: Entry>(
        &mut self,
        out: &mut [u8],
        view: &TableView,
        place: usize,
        entry: &E,
    ) -> Result<(), PageFault>
        ensures answer { result ≡ line_answer self.old (E.Entry.shown entry.now (signal_names view.now) place) out.old }
        ensures output { out.new ≡ output_with self.old (E.Entry.shown entry.now (signal_names view.now) place) out.old }
        ensures at { self.new.at ≡ at_with self.old (E.Entry.shown entry.now (signal_names view.now) place) out.old }
        ensures lines { self.new.lines ≡ lines_with self.old (E.Entry.shown entry.now (signal_names view.now) place) out.old }
        ensures reserved { self.old.at + reserve ≤ length out.old → self.new.at + reserve ≤ length out.new }
    {
        let mut output = Output::new(out, self.at);
        entry.put_line(&mut output, self.kept(), view, place)?;
        self.at = output.at();
        self.lines += 1;
        Ok(())
    }

    // How many bytes stay free behind a line: those of the foot; none where the page takes no more lines.
    fn kept(&self) -> Option<usize>
        ensures value { result ≡ (if nat_lt self.now.lines max_lines then Some reserve else None) }
    {
        (self.lines < MAX_LINES).then_some(FOOT_BYTES)
    }

    // Ends the page with its foot, and answers the position behind it; an output without room for it, which is never one that the page was begun on, stays as before.
    pub fn foot(self, out: &mut [u8]) -> Result<usize, OutputFault>
        ensures answer { result ≡ put_answer_of self.at (foot self.lines) out.old }
        ensures output { out.new ≡ after_put self.at (foot self.lines) out.old }
        ensures granted { self.at + reserve ≤ length out.old → result ≡ Ok (self.at + length (foot self.lines)) }
    {
        let Page { at, lines } = self;
        let mut output = Output::new(out, at);
        output.put_record(b"end", &[lines])?;
        Ok(output.at())
    }
}
