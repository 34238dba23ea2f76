//! What a page is and what it should be, in words.
ghost use Rattle.std.specs.Prelude.{Some};
ghost use Rattle.command_line.specs.Texts.{seen_text, damage_text};

use ex_base::{PageNo, Seen};
use std::fmt;

/// What a page shows of itself, or what the page that names it says of it.
#[derive(Clone, Copy)]
pub struct SeenText(pub Seen);

impl fmt::Display for SeenText {
    ghost output = { λ s. Some (seen_text s.0) };

    fn fmt<W: fmt::Write>(&self, f: &mut fmt::Formatter<W>) -> fmt::Result {
        let Seen { kind, level, total } = self.0;
        write!(f, "kind {kind}, level {level}, total {total}")
    }
}

/// A page that isn't what the page that names it says.
#[derive(Clone, Copy)]
pub struct Damage {
    pub page: PageNo,
    pub want: Seen,
    pub got: Seen,
}

impl fmt::Display for Damage {
    ghost output = { λ d. Some (damage_text d.page d.want d.got) };

    fn fmt<W: fmt::Write>(&self, f: &mut fmt::Formatter<W>) -> fmt::Result {
        let page = self.page.0;
        let want = SeenText(self.want);
        let got = SeenText(self.got);
        write!(f, "page {page}: wanted {want}; found {got}")
    }
}
