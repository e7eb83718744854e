//! `rds`: recordings of Radio Data System bits from standard input, text to standard output.
//!
//! The words of the command line ask for a job or a stream. The exit status is 0 if the text was written, or if
//! help or the version was asked for; 2 for a usage error; 1 for a refusal. A line on standard error names the
//! refusal, and another warns of an option that is ignored.
//!
//! Only `main` holds the runtime. It lends a crew and a teller of progress, and hands over the words and three
//! devices that nothing has gone through yet. So no other function can make a second reader or writer.
//! `main` returns an `Ended`, which only `do_as_asked` makes, and the exit status is that of its `report`.
#![tactic(auto)]

mod command_line; // From the words to their request.
mod ended; // What the program leaves, and its exit status.
mod messages; // Standard error, and help and version.
mod progress; // How far a job is.
mod sealed; // Devices that cannot be taken out of their histories.
mod session; // Jobs and streams from standard input to standard output.

use crate::ended::{Ended, do_as_asked};
use crate::progress::Teller;
use crate::sealed::Sealed;
use rds_tool::{FromRead, ToWrite};
use std::env;

fn main(rt: HostRuntime) -> Ended {
    do_as_asked(
        env::args(&rt),
        rt.alloc(),
        &rt,
        &Teller::new(rt),
        Sealed::new(FromRead::new(rt.stdin())),
        Sealed::new(ToWrite::new(rt.stdout())),
        Sealed::new(ToWrite::new(rt.stderr())),
    )
}
