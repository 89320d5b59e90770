// Runs the libraries `batches`, `writing` and `canonical` on the cases of the text on standard input, whose
// expectations come from elsewhere. It prints a line for each group of cases.
#![tactic(auto)]

mod agreement;
mod batch;
mod exact;
mod large;
mod times;
mod writer;

use agreement::agrees;
use cases::groups::run;
use std::io;

fn main(rt: HostRuntime) -> io::Result<()> {
    run(&rt, &mut rt.stdin(), agrees)?.print(&rt, b"all")
}
