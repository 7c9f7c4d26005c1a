ghost use Rattle.std.specs.Prelude.{None};

use crate::shelf::Opens;
use either::Either;
use std::io::Input;
use std::rt::Files;
use std::{fs, io};

/// The name under which a file that cannot be opened is the standard input.
const STANDARD_INPUT: &str = "/dev/stdin";

/// The files of the system. It tells nothing of what they hold.
#[derive(Drop)]
pub struct SystemFiles<'a, R> {
    rt: &'a R,
}

impl<'a, R> SystemFiles<'a, R> {
    pub fn new(rt: &'a R) -> Self {
        SystemFiles { rt }
    }
}

impl<R: Files + Input> Opens for SystemFiles<'_, R> {
    type File = Either<R::File, R::Reader>;

    ghost files = { λ _. None };

    fn open(&self, name: &str) -> io::Result<Either<R::File, R::Reader>> {
        match fs::open(self.rt, name) {
            Ok(file) => Ok(Either::Left(file)),
            // A pipe that another user made is open here and cannot be opened anew.
            Err(_) if name == STANDARD_INPUT => Ok(Either::Right(self.rt.reader())),
            Err(error) => Err(error),
        }
    }
}
