//! Loops over the calls of a run: each fails in turn, lies or is the last one. Each outcome is told once, by the kind of the call that it came at.
use crate::found::{Found, Seen, add_once, add_outcome, add_seen, is_among, mark_of, shown_of};
use crate::hosts::{Kind, Plan, Watched, run_on};
use crate::images::Way;
use crate::outcomes::{outcome_of, push_status};
use crate::program::Program;
use command_line::Status;
use scenario_values::{Asked, Telling, push_sent, words_of};
use scenario_words::Mode;
use std::alloc::{AllocError, Global};

/// A loop over the calls of a run.
#[derive(Drop)]
pub(crate) struct Trial<'a, P: Program> {
    pub(crate) program: &'a P,
    pub(crate) alloc: Global,
    pub(crate) mode: Mode,
    /// How many calls it goes on by.
    pub(crate) every: u64,
    pub(crate) disk: &'a [u8],
    pub(crate) asked: &'a Asked,
    pub(crate) pieces: u32,
    /// The images that are looked at.
    pub(crate) ways: &'a [Way],
    pub(crate) looks: &'a [Asked],
    /// Whether each image is opened with a stop after each call.
    pub(crate) reopened: bool,
    /// What is run on each image with each call failing.
    pub(crate) through: &'a [Asked],
}

// How many of the ways leave images of their own after that call: one, where nothing is pending.
fn ways_at<'a>(ways: &'a [Way], watched: &Watched, call: u64) -> &'a [Way] {
    if watched.is_pending(call) {
        ways
    } else {
        &ways[..ways.len().min(1)]
    }
}

impl<P: Program> Trial<'_, P> {
    fn run(&self, asked: &Asked, disk: &[u8], plan: Plan) -> Result<(Status, Watched), AllocError> {
        run_on(self.program, self.alloc, asked, disk, plan)
    }

    fn whole(&self, asked: &Asked, disk: &[u8]) -> Result<(Status, Watched), AllocError> {
        self.run(asked, disk, Plan::whole(self.pieces))
    }

    // Adds what a look tells of an image.
    fn push_look(
        &self,
        shown: &mut Vec<u8>,
        asked: &Asked,
        image: &[u8],
    ) -> Result<(), AllocError> {
        let (status, watched) = self.whole(asked, image)?;
        if !shown.is_empty() {
            shown.extend_from_slice(b" / ")?;
        }
        push_sent(self.alloc, shown, watched.host().sent_bytes(), Telling::ALL)?;
        push_status(self.alloc, shown, status)
    }

    // What the looks tell of an image.
    fn look_at(&self, image: &[u8]) -> Result<Vec<u8>, AllocError> {
        let mut shown = Vec::new(self.alloc);
        for asked in self.looks {
            self.push_look(&mut shown, asked, image)?;
        }
        Ok(shown)
    }

    // Looks at an image, and notes what it shows where it isn't this.
    fn compare_image(
        &self,
        left: &mut Vec<Seen>,
        others: &mut Vec<Vec<u8>>,
        image: &[u8],
        shown: &[u8],
    ) -> Result<(), AllocError> {
        let mark = mark_of(image);
        if is_among(left, mark, shown) {
            return Ok(());
        }
        let row = self.look_at(image)?;
        if row.as_slice() != shown {
            add_once(others, row)?;
        }
        add_seen(self.alloc, left, mark, shown)
    }

    // Looks at the images after that call, and notes what they show where it isn't this.
    fn compare(
        &self,
        left: &mut Vec<Seen>,
        others: &mut Vec<Vec<u8>>,
        watched: &Watched,
        call: u64,
        shown: &[u8],
    ) -> Result<(), AllocError> {
        for way in ways_at(self.ways, watched, call) {
            let image = way.image(self.alloc, watched.host(), call)?;
            self.compare_image(left, others, &image, shown)?;
        }
        Ok(())
    }

    // Stops an opening of an image after each call, and looks at what that leaves.
    fn reopen(&self, found: &mut Found, image: &[u8], shown: &[u8]) -> Result<(), AllocError> {
        let opening = Asked {
            words: words_of(self.alloc, "run v")?,
            source: Vec::new(self.alloc),
        };
        let (_, watched) = self.whole(&opening, image)?;
        for call in 0..=watched.host().calls() {
            if watched.may_change(call) {
                self.compare(&mut found.left, &mut found.reopened, &watched, call, shown)?;
            }
        }
        Ok(())
    }

    // Runs a command line on an image with that call failing.
    fn go_through_once(
        &self,
        found: &mut Found,
        asked: &Asked,
        image: &[u8],
        all: &Watched,
        call: u64,
        shown: &[u8],
    ) -> Result<(), AllocError> {
        let plan = Plan::at(self.pieces, Mode::Fails, call);
        let (status, watched) = self.run(asked, image, plan)?;
        let text = outcome_of(self.alloc, all.host(), status, watched.host(), call)?;
        add_outcome(&mut found.through, watched.kind_of(call), text)?;
        self.compare(&mut found.left, &mut found.damaged, &watched, call, shown)
    }

    // Runs a command line on an image with each call failing.
    fn go_through(
        &self,
        found: &mut Found,
        asked: &Asked,
        image: &[u8],
        shown: &[u8],
    ) -> Result<(), AllocError> {
        let (_, all) = self.whole(asked, image)?;
        for call in 1..=all.host().calls() {
            self.go_through_once(found, asked, image, &all, call, shown)?;
        }
        Ok(())
    }

    // Does with an image what the loop asks for.
    fn follow(&self, found: &mut Found, image: &[u8], shown: &[u8]) -> Result<(), AllocError> {
        if self.reopened {
            self.reopen(found, image, shown)?;
        }
        for asked in self.through {
            self.go_through(found, asked, image, shown)?;
        }
        Ok(())
    }

    // What an image shows, with which the loop does what it asks for where it wasn't met before.
    fn shown_by(&self, found: &mut Found, image: &[u8]) -> Result<Vec<u8>, AllocError> {
        let mark = mark_of(image);
        if let Some(shown) = shown_of(self.alloc, &found.met, mark)? {
            return Ok(shown);
        }
        let shown = self.look_at(image)?;
        self.follow(found, image, &shown)?;
        add_seen(self.alloc, &mut found.met, mark, &shown)?;
        Ok(shown)
    }

    // Looks at an image that is met, and notes what it shows.
    fn meet(&self, found: &mut Found, image: &[u8], kept: &[u8]) -> Result<(), AllocError> {
        let shown = self.shown_by(found, image)?;
        let mut row = kept.to_vec(self.alloc)?;
        row.extend_from_slice(b": ")?;
        row.extend_from_slice(&shown)?;
        add_once(&mut found.shown, row)
    }

    // Looks at the images that a stop after that call of a run may leave.
    fn images(&self, found: &mut Found, watched: &Watched, call: u64) -> Result<(), AllocError> {
        if self.looks.is_empty() {
            return Ok(());
        }
        let kept = watched.kept_at(self.alloc, call)?;
        for way in ways_at(self.ways, watched, call) {
            let image = way.image(self.alloc, watched.host(), call)?;
            self.meet(found, &image, &kept)?;
        }
        Ok(())
    }

    // The round of a loop of stops, at that call.
    fn stop_at(&self, found: &mut Found, all: &Watched, call: u64) -> Result<(), AllocError> {
        if self.every > 1 || all.may_change(call) || all.kind_of(call) == Some(Kind::Put) {
            self.images(found, all, call)
        } else {
            Ok(())
        }
    }

    // The round of any other loop, at that call.
    fn fail_at(
        &self,
        found: &mut Found,
        all: &Watched,
        call: u64,
        kind: Kind,
    ) -> Result<(), AllocError> {
        let plan = Plan::at(self.pieces, self.mode, call);
        let (status, watched) = self.run(self.asked, self.disk, plan)?;
        let text = outcome_of(self.alloc, all.host(), status, watched.host(), call)?;
        add_outcome(&mut found.outcomes, Some(kind), text)?;
        self.images(found, &watched, watched.host().calls())
    }

    // One round of the loop, at that call.
    fn round(&self, found: &mut Found, all: &Watched, call: u64) -> Result<(), AllocError> {
        if self.mode == Mode::Stops {
            return self.stop_at(found, all, call);
        }
        match all.kind_of(call) {
            Some(kind) if self.mode == Mode::Fails || kind == Kind::Read => {
                self.fail_at(found, all, call, kind)
            }
            _ => Ok(()),
        }
    }

    /// Adds what comes of the loop, line by line.
    pub(crate) fn push(&self, out: &mut Vec<u8>) -> Result<(), AllocError> {
        let mut found = Found::new(self.alloc);
        let (_, all) = self.whole(self.asked, self.disk)?;
        let mut next = 0;
        for call in 0..=all.host().calls() {
            if call == next {
                self.round(&mut found, &all, call)?;
                next = call.saturating_add(self.every);
            }
        }
        found.push(out, self.reopened, !self.through.is_empty())
    }
}
