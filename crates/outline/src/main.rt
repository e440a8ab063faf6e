//! Outlines the script on standard input: seven lines for each of its statements.
#![tactic(auto)]

use report::input::run;
use report::outline::outline_text;
use std::io;

fn main(rt: HostRuntime) -> io::Result<()> {
    let heap = rt.alloc();
    run(
        heap,
        rt.stdin(),
        &mut rt.stdout(),
        |script| outline_text(heap, script),
    )
}
