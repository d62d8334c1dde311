ghost use Rattle.std.specs.Prelude.{◌≡◌, [], ◌∷◌};
ghost use Rattle.output.specs.Records.{record_line};
ghost use Rattle.page.specs.Pages.{Begun, closed_head, put_before, rules_head};
ghost use Rattle.view.specs.Shown.{signal_count};

use super::{FOOT_BYTES, Page};
use crate::entry::check_room;
use operators::operator::Operator;
use output::faults::OutputFault;
use output::number::digits;
use output::output::Output;
use view::table_view::TableView;

// The bytes of a head besides its word and its number.
const HEAD_BYTES: usize = 2;

impl Page {
    // Begins a page of the closed sets of an operator with its head at position `at`; where the head does not fit before the bytes of the foot, the output stays as before.
    // Output and position come apart: a page holds no reference, and its output is lent to each call.
    pub fn begin_closed<O: Operator>(
        out: &mut [u8],
        at: usize,
        operator: &O,
        view: &TableView,
    ) -> Result<Page, OutputFault>
        ensures answer { Begun at (closed_head O.Operator.letter (signal_count view.now)) out.old result }
        ensures output { out.new ≡ put_before at (closed_head O.Operator.letter (signal_count view.now)) out.old }
    {
        let mut word = *b"closed,?";
        word[7] = operator.mark();
        Page::begin(out, at, &word, view.signals())
    }

    // Begins a page of rules with its head at position `at`; where the head does not fit before the bytes of the foot, the output stays as before.
    pub fn begin_rules(out: &mut [u8], at: usize, view: &TableView) -> Result<Page, OutputFault>
        ensures answer { Begun at (rules_head (signal_count view.now)) out.old result }
        ensures output { out.new ≡ put_before at (rules_head (signal_count view.now)) out.old }
    {
        Page::begin(out, at, b"rules", view.signals())
    }

    // Begins a page with a head of a word and a number at position `at`; where the head does not fit before the bytes of the foot, the output stays as before.
    fn begin(out: &mut [u8], at: usize, word: &[u8], number: usize) -> Result<Page, OutputFault>
        ensures answer { Begun at (record_line word.now (number ∷ [])) out.old result }
        ensures output { out.new ≡ put_before at (record_line word.now (number ∷ [])) out.old }
    {
        let mut output = Output::new(out, at);
        check_room(
            &output,
            Some(FOOT_BYTES),
            word.len() + HEAD_BYTES + digits(number),
        )?;
        output.put_record(word, &[number])?;
        Ok(Page {
            at: output.at(),
            lines: 0,
        })
    }
}
