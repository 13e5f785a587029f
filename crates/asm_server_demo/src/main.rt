//! The same program on the words of its greatest demo.
#![tactic(auto)]

use asm_stdio::run_on_host;
use std::io;
use std::process::ExitCode;

fn main(rt: HostRuntime) -> io::Result<ExitCode> {
    Ok(ExitCode::from(run_on_host(rt)))
}
