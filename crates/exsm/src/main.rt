//! exsm, a storage manager: keeps storage objects on a volume file.
#![tactic(auto)]

use exsm_run::run_program;
use std::process::ExitCode;

fn main(rt: HostRuntime) -> ExitCode {
    run_program(&rt)
}
