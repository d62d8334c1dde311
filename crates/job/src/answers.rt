ghost use Rattle.std.specs.Prelude.{◌≡◌, ◌+◌, ◌^◌, ◌<◌, ◌≤◌, length};
ghost use Rattle.job.specs.Jobs.{PutsPart};
ghost use Rattle.job.specs.Replies.{answer_line, answers_of, answers_part};
ghost use Rattle.job.specs.Reports.{fault_line};
ghost use Rattle.output.specs.Outputs.{Puts};
ghost use Rattle.view.specs.Shown.{signal_names};

use crate::faults::JobFault;
use fault::Fault;
use fault::refusal::Refusal;
use output::faults::OutputFault;
use output::output::Output;
use query::faults::QueryFault;
use query::known::Known;
use query::query::ask;
use query::reply::Reply;
use view::table_view::TableView;

// Answers the queries on the lines of a text, of which the first has the number `line`, and puts one line for each.
pub(crate) fn write_answers(
    out: &mut Output,
    view: &TableView,
    queries: &[u8],
    line: usize,
) -> Result<(), JobFault>
    requires room { out.old.at ≤ length out.old.bytes.now }
    requires near { line + length queries.now < 2 ^ 64 }
    ensures part { PutsPart (answers_part out.old.at (answers_of (signal_names view.now) view.now.words.now line queries.now) (length out.old.bytes.now)) out.old result out.new }
{
    let mut known = Known::new();
    let lines = queries.split_inclusive(|byte| *byte == b'\n');
    for (index, query) in lines.enumerate() {
        let answer = ask(view, &mut known, line + index, query);
        put_answer(out, answer)?;
    }
    Ok(())
}

// Puts the line of an answer; where it does not fit, all stays as before.
fn put_answer(out: &mut Output, answer: Result<Reply, QueryFault>) -> Result<(), OutputFault>
    ensures puts { Puts (answer_line answer) out.old result out.new }
{
    match answer {
        Ok(reply) => out.put_record(reply.text(), &[]),
        Err(fault) => put_fault(out, fault.fault()),
    }
}

// Puts a fault line; where it does not fit, all stays as before.
pub(crate) fn put_fault(out: &mut Output, told: Fault) -> Result<(), OutputFault>
    ensures puts { Puts (fault_line told) out.old result out.new }
{
    let word = [b'f', b'a', b'u', b'l', b't', b',', told.letter];
    out.put_record(&word, &[told.number as usize, told.line, told.byte])
}
