//! The program `pc`: it runs a command over files and standard output, and ends with its status.
#![tactic(auto)]

use pc_base::Status;
use pc_cli_host::{HostShelf, HostSink, SystemFiles, words};
use pc_run::run;
use std::io;
use std::process::ExitCode;

fn main(rt: HostRuntime) -> ExitCode {
    let status = match words(&rt) {
        Ok(words) => run(
            rt.alloc(),
            words.as_slice(),
            &mut HostShelf::new(SystemFiles::new(&rt)),
            &mut HostSink::new(io::writer(&rt)),
        ),
        Err(_) => Status::Memory,
    };
    ExitCode::from(status.code())
}
