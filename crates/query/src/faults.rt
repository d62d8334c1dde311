ghost use Rattle.query.specs.Faults.{fault_of};
ghost use Rattle.query.specs.declared.faults.QueryFault.TheVariants.{Field};
ghost use Rattle.std.specs.Prelude.{◌≡◌};

use fault::Fault;
use fault::refusal::Refusal;
use text::faults::FieldFault;

// Why a query is refused.
#[derive(Clone, Copy, PartialEq, Eq, Debug)]
pub enum QueryFault {
    // The line has no line feed, or no number where one is wanted.
    Field(FieldFault),
    // The first field is no verb.
    NoVerb { line: usize },
    // No signal has this name.
    NoName { line: usize, byte: usize },
    // There are fewer names than the number says.
    TooFew { line: usize, byte: usize },
}

impl Refusal for QueryFault {
    ghost tells = { fault_of };

    // What the refusal tells; that of a line or a field is passed up whole.
    fn fault(&self) -> Fault {
        let (number, line, byte) = match *self {
            QueryFault::Field(inner) => return inner.fault(),
            QueryFault::NoVerb { line } => (62, line, 1),
            QueryFault::NoName { line, byte } => (63, line, byte),
            QueryFault::TooFew { line, byte } => (64, line, byte),
        };
        Fault::in_text(b'A', number, line, byte)
    }
}

// Each `From` is by hand: a derived one would have no contract, and clauses name the refusal.

// A refusal of a line or a field, as a query tells it.
impl From<FieldFault> for QueryFault {
    ghost from_gives = { λ e r. r ≡ Field e };

    fn from(inner: FieldFault) -> QueryFault {
        QueryFault::Field(inner)
    }
}
