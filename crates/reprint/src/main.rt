//! Reprints the script on standard input: four lines for each of its statements.
#![tactic(auto)]

use report::input::run;
use report::reprint::reprint_text;
use std::io;

fn main(rt: HostRuntime) -> io::Result<()> {
    let heap = rt.alloc();
    run(
        heap,
        rt.stdin(),
        &mut rt.stdout(),
        |script| reprint_text(heap, script),
    )
}
