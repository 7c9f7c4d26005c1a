use pc_desk_run::Watch;
use std::io::IsTerminal;
use std::time::{Duration, Instant};

/// Tells a terminal how far a run has come that has lasted two seconds: one line of the standard error, which is overwritten and
/// is gone with the last answer.
#[derive(Drop)]
pub(crate) struct Progress<'a> {
    rt: &'a HostRuntime,
    start: Option<Instant>,
    shown: bool,
}

impl<'a> Progress<'a> {
    /// A run begins now. Where that is no terminal, or there is no clock, nothing is told.
    pub(crate) fn new(rt: &'a HostRuntime) -> Progress<'a> {
        Progress {
            rt,
            start: started(rt),
            shown: false,
        }
    }

    fn is_due(&self) -> bool {
        match &self.start {
            Some(start) => match start.elapsed(self.rt) {
                Ok(time) => time >= Duration::from_secs(2),
                Err(_) => false,
            },
            None => false,
        }
    }
}

impl<'a> Watch for Progress<'a> {
    fn saw(&mut self, done: usize, all: usize) {
        if done == all {
            if self.shown {
                let _told = eprint!(self.rt; "\r\x1b[K");
            }
            return;
        }
        if self.is_due() {
            let _told = eprint!(self.rt; "\r{done} of {all} answers\x1b[K");
            self.shown = true;
        }
    }
}

fn started(rt: &HostRuntime) -> Option<Instant> {
    if !rt.stderr().is_terminal() {
        return None;
    }
    Instant::now(rt).ok()
}
