// Ranges that overlap.
ghost use Rattle.std.specs.Prelude.{AllPairs, ◌≡◌};
ghost use Rattle.btr_check_rules.specs.Groups.{Apart};
ghost use Rattle.btr_check_fields.specs.Failing.{Answers, FailsOfTwo, start_of};
ghost use Rattle.btr_check_fields.specs.Tests.{are_apart};

use btr_check_rules::Span;

/// Whether two ranges have no byte in common: one ends before the other begins.
fn are_apart(a: &Span, b: &Span) -> bool
    ensures { result ≡ are_apart a.now b.now }
{
    a.start as u128 + a.length as u128 <= b.start as u128
        || b.start as u128 + b.length as u128 <= a.start as u128
}

/// Where a range begins that is not apart from one behind it; None where all are apart. There are as many comparisons as
/// pairs, as where a volume is opened.
pub fn overlap(spans: &[Span]) -> Option<u64>
    ensures { Answers (AllPairs Apart spans.now) (FailsOfTwo start_of Apart spans.now) result }
{
    for i in 0..spans.len() {
        for j in i + 1..spans.len() {
            if !are_apart(&spans[i], &spans[j]) {
                return Some(spans[i].start);
            }
        }
    }
    None
}
