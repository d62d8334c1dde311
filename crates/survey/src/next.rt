ghost use Rattle.std.specs.Prelude.{◌≡◌, suc, ◌+◌, ◌-◌, ◌*◌, ◌/◌, ◌%◌, ◌^◌, ◌<◌, ◌≤◌, IsSomeAnd, IfSome, MatchOption};
ghost use Rattle.theory.specs.Closures.{LeastClosed};

use operators::operator::Operator;
use sets::set::Set;

// NextClosure: the least closed set after one, with the number of signals tried; none comes after the full set.
pub(crate) fn next_after<O: Operator>(operator: &O, last: Set) -> Option<(Set, usize)>
    ensures after { IfSome result (λ found. (found.0.width ≡ last.width) × (last.word < found.0.word)) }
    ensures next { last.width ≡ O.Operator.span operator.now → MatchOption result
        (last.word ≡ 2 ^ last.width - 1)
        (λ found. LeastClosed last.width (O.Operator.means operator.now) (suc last.word) found.0.word × (found.1 ≤ last.width)) }
{
    let mut bit = 0;
    let mut trials = 0;
    // The loop is to yield the closed set by break at the first signal that passes.
    let found = loop {
        if bit == last.width() {
            break None;
        }
        if (last.word() >> bit) % 2 == 0 {
            trials += 1;
            if let Some(closed) = operator.trial(candidate(last, bit), bit) {
                break Some(closed);
            }
        }
        bit += 1;
    };
    Some((found?, trials))
}

// The set that is tried for a bit which the last one lacks: what that one has above the bit, and the bit.
fn candidate(last: Set, bit: usize) -> Set
    requires low { bit < last.width }
    requires lacks { last.word / 2 ^ bit % 2 ≡ 0 }
    ensures width { result.width ≡ last.width }
    ensures word { result.word ≡ (last.word / 2 ^ suc bit * 2 + 1) * 2 ^ bit }
{
    Set::new(last.width(), ((last.word() >> bit) + 1) << bit).unwrap()
}

// The least closed set not before a set, with the number of signals tried.
pub(crate) fn first_from<O: Operator>(operator: &O, start: Set) -> Option<(Set, usize)>
    ensures width { IfSome result (λ found. found.0.width ≡ start.width) }
    ensures first { start.width ≡ O.Operator.span operator.now → IsSomeAnd result
        (λ found. LeastClosed start.width (O.Operator.means operator.now) start.word found.0.word × (found.1 ≤ start.width)) }
{
    let closed = operator.closure(start);
    if closed.word() == start.word() {
        Some((closed, 0))
    } else {
        next_after(operator, start)
    }
}

// The least closed set after one; none after the full set, and none where the operator closes sets of another width.
pub fn least_after<O: Operator>(operator: &O, last: Set) -> Option<Set>
    ensures least { MatchOption result
        (last.width ≡ O.Operator.span operator.now → last.word ≡ 2 ^ last.width - 1)
        (λ set. (last.width ≡ O.Operator.span operator.now) × (set.width ≡ last.width)
        × LeastClosed last.width (O.Operator.means operator.now) (suc last.word) set.word) }
{
    if last.width() != operator.width() {
        return None;
    }
    let (set, _) = next_after(operator, last)?;
    Some(set)
}
