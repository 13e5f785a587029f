//! The program: writes the text of a model anew, in its canonical form. It reads standard input and
//! writes on standard output. A text that isn't a model's is reported on standard error, with its
//! line and column, and the status is 1.
#![tactic(auto)]

mod format;
mod refused;

use std::io;
use std::process::ExitCode;

fn main(rt: HostRuntime) -> io::Result<ExitCode> {
    let alloc = rt.alloc();
    let text = io::read_to_string(alloc, rt.stdin())?;
    match format::format(alloc, text.as_str()) {
        Ok(formatted) => {
            rt.print(formatted.as_str())?;
            Ok(ExitCode::SUCCESS)
        }
        Err(why) => {
            rt.eprintln(refused::message(alloc, text.as_str(), &why)?)?;
            Ok(ExitCode::FAILURE)
        }
    }
}
