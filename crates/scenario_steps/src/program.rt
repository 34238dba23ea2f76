//! What does command lines.
use crate::hosts::Watched;
use command_line::Status;
use command_words::NamedFile;
use std::alloc::Global;

/// A program that does command lines.
pub trait Program {
    /// Does one on a host, and says how it ended.
    fn on_host(&self, alloc: Global, words: &[String], host: &mut Watched) -> Status;

    /// Does one on the real file that it names, and says how it ended.
    fn on_file(&self, rt: &HostRuntime, words: &[String], file: Option<NamedFile<'_>>) -> Status;
}
