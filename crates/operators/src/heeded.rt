ghost use Rattle.operators.specs.Heeded.{max_rules};
ghost use Rattle.std.specs.Prelude.{◌≡◌, take};

use sets::rule::Rule;

// The most rules of a list that count.
pub const MAX_RULES: usize = 4096;

// The first rules of a list, as many as count.
pub(crate) fn first_rules(rules: &[Rule]) -> &[Rule]
    ensures first { result.now ≡ take max_rules rules.now }
{
    &rules[..rules.len().min(MAX_RULES)]
}
