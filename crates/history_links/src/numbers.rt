//! The version that has a number.
ghost use Rattle.std.specs.Prelude.{IfSome, IfNone};
ghost use Rattle.history_links.specs.Found.{IsNoNumber, IsNumbered};
ghost use Rattle.history_links.specs.Linked.{NumbersRise};

use crate::PlacedVersion;

/// The index of the version with a number, among versions in order of their numbers.
pub(crate) fn find_number(versions: &[PlacedVersion], number: u64) -> Option<usize>
    requires { NumbersRise versions.now }
    ensures found { IfSome result (IsNumbered versions.now number) }
    ensures none { IfNone result (IsNoNumber versions.now number) }
{
    let mut from = 0;
    let mut to = versions.len();
    'halves: while from < to {
        let middle = from + (to - from) / 2;
        let here = versions[middle].unique;
        if here == number {
            return Some(middle);
        }
        if here < number {
            from = middle + 1;
        } else {
            to = middle;
        }
    }
    None
}
