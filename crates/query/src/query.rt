ghost use Rattle.std.specs.Prelude.{◌≡◌, length};
ghost use Rattle.query.specs.Lefts.{left, read_as};
ghost use Rattle.query.specs.Meaning.{Replies};
ghost use Rattle.query.specs.Names.{with_names};
ghost use Rattle.query.specs.Queries.{count_of, follows_reply, given_known, given_reply, known_after, known_by_line, reply_by_line, reply_of, suppose_reply};
ghost use Rattle.view.specs.Shown.{signal_names};

use crate::faults::QueryFault;
use crate::field::{Field, Fields};
use crate::known::Known;
use crate::known::supposing::Supposing;
use crate::names::Names;
use crate::reply::Reply;
use operators::holds::rows_hold;
use text::faults::FieldFault;
use text::line::line_end;
use text::number::number;
use view::table_view::TableView;

// Answers the query on the first line of the text, which has the number `line`.
pub fn ask(
    view: &TableView,
    known: &mut Known,
    line: usize,
    text: &[u8],
) -> Result<Reply, QueryFault>
    ensures answer { result ≡ reply_of (signal_names view.now) view.now.words.now known.old.word line text.now }
    ensures known { known.new.word ≡ known_after (signal_names view.now) known.old.word line text.now }
    ensures meaning { Replies (signal_names view.now) view.now.words.now known.old.word known.new.word text.now result }
{
    let end = line_end(text, line, 0)?;
    ask_line(&Names { view: *view, line }, known, &text[..end])
}

// Answers the query that the bytes of a line put.
fn ask_line(names: &Names, known: &mut Known, bytes: &[u8]) -> Result<Reply, QueryFault>
    ensures answer { result ≡ reply_by_line (signal_names names.now.view) names.now.view.words.now known.old.word names.now.line bytes.now }
    ensures known { known.new.word ≡ known_by_line (signal_names names.now.view) known.old.word names.now.line bytes.now }
{
    let (verb, fields) = Fields::split(bytes);
    match verb.bytes {
        b"given" => given(names, known, fields),
        b"follows" => follows(names, known, fields),
        _ => Err(QueryFault::NoVerb { line: names.line }),
    }
}

// Adds the signals that the fields name to the known set, all or none.
fn given(names: &Names, known: &mut Known, fields: Fields) -> Result<Reply, QueryFault>
    ensures answer { result ≡ given_reply (with_names (signal_names names.now.view) names.now.line known.old.word (left fields.entry)) }
    ensures known { known.new.word ≡ given_known known.old.word (with_names (signal_names names.now.view) names.now.line known.old.word (left fields.entry)) }
{
    let word = names.joined(known.word(), fields)?;
    known.set(word);
    Ok(Reply::Done)
}

// Answers whether the names asked follow from the known set and the names supposed.
fn follows(names: &Names, known: &mut Known, mut fields: Fields) -> Result<Reply, QueryFault>
    ensures answer { result ≡ follows_reply (signal_names names.now.view) names.now.view.words.now known.old.word names.now.line (length fields.entry.line.now) (left fields.entry) }
    ensures known { known.new.word ≡ known.old.word }
{
    let Some(field) = fields.next() else {
        return Err(QueryFault::Field(FieldFault::NoNumber {
            line: names.line,
            byte: fields.end(),
        }));
    };
    let count = count_in(names.line, field)?;
    suppose(names, known, fields, count)
}

// Reads the number that a field writes; a refusal names the start of the field.
fn count_in(line: usize, field: Field) -> Result<usize, FieldFault>
    ensures count { result ≡ count_of line (read_as field.entry) }
{
    number(field.bytes, line).map_err(|_| FieldFault::NoNumber {
        line,
        byte: field.byte,
    })
}

// Supposes the next `count` names one by one, and answers whether the further names follow; the known set is then as before.
fn suppose(
    names: &Names,
    known: &mut Known,
    mut fields: Fields,
    count: usize,
) -> Result<Reply, QueryFault>
    ensures answer { result ≡ suppose_reply (signal_names names.now.view) names.now.view.words.now known.old.word names.now.line (length fields.entry.line.now) count (left fields.entry) }
    ensures known { known.new.word ≡ known.old.word }
{
    let mut supposing = Supposing::new(known);
    for _ in 0..count {
        let Some(field) = fields.next() else {
            return Err(QueryFault::TooFew {
                line: names.line,
                byte: fields.end(),
            });
        };
        supposing.add(names.word(field)?);
    }
    let asked = names.joined(0, fields)?;
    Ok(Reply::from(rows_hold(names.view.words(), supposing.word(), asked)))
}
