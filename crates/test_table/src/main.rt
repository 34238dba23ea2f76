//! Steps scripts by the slow reference. Each line of the input has what a volume decides at it, a bar, and the line of the script; the output has
//! the replies. A line `volume PAGES SEGS` begins anew with an empty volume of pages of 512 bytes, units of one page and the fan 2.
#![tactic(auto)]

mod decided;
mod form;
mod start;
mod steps;

use std::io;
use std::io::Write;

fn main(rt: HostRuntime) -> io::Result<()> {
    let mut machine = start::first_machine(rt.alloc());
    for line in rt.lines(rt.alloc()) {
        let text = steps::answer(rt.alloc(), &mut machine, line?.as_str().as_bytes())?;
        io::writer(&rt).write_all(text.as_slice())?;
    }
    Ok(())
}
