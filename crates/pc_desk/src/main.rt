//! The program `pc_desk`: it does what the words ask, over files, standard output and standard error.
#![tactic(auto)]

mod progress;

use crate::progress::Progress;
use pc_cli_host::{HostShelf, HostSink, SystemFiles, words};
use pc_desk_run::{Ended, desk};
use std::io;
use std::process::ExitCode;

fn main(rt: HostRuntime) -> ExitCode {
    let ended = match words(&rt) {
        Ok(words) => desk(
            rt.alloc(),
            words.as_slice(),
            &mut HostShelf::new(SystemFiles::new(&rt)),
            &mut HostSink::new(io::writer(&rt)),
            &mut HostSink::new(rt.stderr()),
            &mut Progress::new(&rt),
        ),
        Err(_) => Ended::Memory,
    };
    ExitCode::from(ended.code())
}
