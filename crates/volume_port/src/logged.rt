//! Which logged pages a session has.
ghost use Rattle.std.specs.Prelude.{◌≡◌, ◌<◌, ℕ, true, false, length, slice_set, eqb, IfOk};
ghost use Rattle.ex_base.specs.Area.{area_end, catalog_no};

use ex_base::{Geometry, PageNo};
use page_alloc::Filled;
use std::alloc::{AllocError, Global};
use std::marker::Model;

/// Which logged pages the working state has. Contracts see a list of flags, by page number.
#[derive(Drop)]
pub struct LoggedPages {
    held: Filled<bool>,
}

impl Model for LoggedPages {
    ghost use Rattle.volume_port.specs.Logged.{LoggedSet};

    ghost Value = { LoggedSet };

    ghost view = { λ p. p.held };
}

impl LoggedPages {
    ghost use Rattle.volume_port.specs.Logged.{is_held};

    /// The pages of a fresh volume: the catalog's page alone is there.
    pub fn make(alloc: Global, geometry: &Geometry) -> Result<LoggedPages, AllocError>
        ensures held { IfOk result (λ s. (p : ℕ) → is_held s p ≡ eqb p catalog_no) }
        ensures held_len { IfOk result (λ s. length s ≡ area_end geometry.now) }
    {
        let pages = (PageNo::CATALOG.0 + geometry.pages) as usize;
        let mut held = Filled::make(alloc, false, pages)?;
        held.set(PageNo::CATALOG.0 as usize, true);
        Ok(LoggedPages { held })
    }

    /// Whether the working state has each page, by page number.
    pub fn held(&self) -> &Filled<bool>
        ensures { result.now ≡ self.now }
    {
        &self.held
    }

    /// Whether the working state has a page.
    pub fn holds(&self, page: PageNo) -> bool
        requires { page.0 < length self.now }
        ensures { result ≡ is_held self.now page.0 }
    {
        self.held.get(page.0 as usize)
    }

    /// The working state has a page from now on.
    pub fn adopt(&mut self, page: PageNo)
        requires held { page.0 < length self.old }
        ensures { self.new ≡ slice_set self.old page.0 true }
    {
        self.held.set(page.0 as usize, true);
    }

    /// A page is given back.
    pub fn give(&mut self, page: PageNo)
        requires held { page.0 < length self.old }
        ensures { self.new ≡ slice_set self.old page.0 false }
    {
        self.held.set(page.0 as usize, false);
    }
}
