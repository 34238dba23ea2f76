//! The entry that a key leads to.
ghost use Rattle.std.specs.Prelude.{◌≡◌, ◌≤◌, ◌<◌, length, Some};
ghost use Rattle.file_index.specs.Least.{pick, IsAtLeast};

use crate::Entry;
use crate::view::IndexView;
use ex_base::PageNo;

/// The entry that a key leads to, and the first file page behind all that it leads to.
#[derive(Clone, Copy, Debug, PartialEq, Eq)]
pub struct Step {
    pub child: Entry,
    pub next: Option<PageNo>,
}

/// The last entry whose key is not above the key, else the first one.
pub fn pick(view: &IndexView, key: u32, next: Option<PageNo>) -> Step
    requires { 1 ≤ length view.now.entries }
    ensures step { result ≡ pick view.now.entries key next }
    ensures above { IsAtLeast key next → IsAtLeast key result.next }
{
    let index = view.first_above(key);
    let child = view.entry(index - 1);
    if index == view.len() {
        return Step { child, next };
    }
    Step {
        child,
        next: Some(PageNo(view.entry(index).key)),
    }
}
