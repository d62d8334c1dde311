ghost use Rattle.std.specs.Prelude.{◌≡◌, ◌+◌, ◌^◌, ◌≤◌, ◌↔◌, IfSome, IsSome, length, nat_lt};
ghost use Rattle.std.specs.List.{list_all};
ghost use Rattle.table.specs.Names.{part_at};
ghost use Rattle.theory.specs.declared.TheConstants.{MAX_SIGNALS};
ghost use Rattle.view.specs.Views.{fit, holds_name_at};

use table::limits::MAX_ROWS;
use table::name::wrong_byte;
use table::place::Place;
use theory::MAX_SIGNALS;

// Tells whether these are the parts of a table.
pub(crate) fn fits(text: &[u8], words: &[u64], places: &[Place]) -> bool
    ensures answer { result ≡ fit text.now words.now places.now }
{
    let Some(signals) = places.len().checked_sub(words.len()) else {
        return false;
    };
    words.len() <= MAX_ROWS
        && signals <= MAX_SIGNALS
        && are_narrow(words, signals)
        && are_names(text, places)
}

// Tells whether no word has a bit beyond the signals.
fn are_narrow(words: &[u64], signals: usize) -> bool
    requires { signals ≤ MAX_SIGNALS }
    ensures answer { result ≡ list_all (λ w. nat_lt w (2 ^ signals)) words.now }
{
    let limit = 1 << signals;
    words.iter().all(|word| *word < limit)
}

// Tells whether each place holds a name.
fn are_names(text: &[u8], places: &[Place]) -> bool
    ensures answer { result ≡ list_all (holds_name_at text.now) places.now }
{
    places.iter().all(|place| holds_name(text, *place))
}

// Tells whether the place lies inside the text and its bytes are a name.
fn holds_name(text: &[u8], place: Place) -> bool
    ensures answer { result ≡ holds_name_at text.now place }
{
    part(text, place).is_some_and(|bytes| wrong_byte(bytes).is_none())
}

// The part of the text at a place; none where the place does not lie inside the text.
fn part(text: &[u8], place: Place) -> Option<&[u8]>
    ensures inside { IsSome result ↔ place.start + place.length ≤ length text.now }
    ensures bytes { IfSome result (λ bytes. bytes.now ≡ part_at text.now place) }
{
    text.get(place.start..)?.get(..place.length)
}
