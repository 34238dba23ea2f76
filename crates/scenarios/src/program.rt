//! The program whose command lines are done.
use exsm_run::{NamedFile, Status, run, run_words};
use scenario_steps::{Program, Watched};
use std::alloc::Global;

/// exsm.
#[derive(Clone, Copy)]
pub(crate) struct Exsm;

impl Program for Exsm {
    fn on_host(&self, alloc: Global, words: &[String], host: &mut Watched) -> Status {
        run(alloc, words, host)
    }

    fn on_file(&self, rt: &HostRuntime, words: &[String], file: Option<NamedFile<'_>>) -> Status {
        run_words(rt, words, file).status
    }
}
