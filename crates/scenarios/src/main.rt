//! Reads scenarios on the standard input, and writes what came of them: command lines on volumes in memory, whose calls may fail, lie or stop.
#![tactic(auto)]

mod program;

use program::Exsm;
use scenario_steps::Scenes;
use std::io;
use std::io::Write;

fn main(rt: HostRuntime) -> io::Result<()> {
    let mut scenes = Scenes::new(rt.alloc());
    let mut number: u64 = 0;
    for line in rt.lines(rt.alloc()) {
        number = number.saturating_add(1);
        let told = scenes.told(&Exsm, &rt, number, line?.as_str())?;
        io::writer(&rt).write_all(told.as_slice())?;
    }
    Ok(())
}
