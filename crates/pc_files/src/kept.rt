ghost use Rattle.std.specs.Prelude.{◌≡◌, []};
ghost use Rattle.pc_files.specs.Keeping.{none_kept, set_apart};

use pc_list::Seq;
use std::alloc::Global;
use std::mem;

/// The bytes of files that were loaded, so that a refusal can be explained by them.
#[derive(Debug, Drop)]
pub struct Kept {
    /// Those of the schema, once the next file is loaded.
    pub schema: Seq<u8>,
    /// Those of the file that was loaded last, but none of one that is too long.
    pub last: Seq<u8>,
}

impl Kept {
    /// Of no file.
    pub fn new(alloc: Global) -> Kept
        ensures { result ≡ none_kept }
    {
        Kept {
            schema: Seq::new(alloc),
            last: Seq::new(alloc),
        }
    }

    /// The file that was loaded last was the schema: its bytes stay while others are loaded.
    pub(crate) fn set_schema_apart(&mut self, alloc: Global)
        ensures { self.new ≡ set_apart self.old }
    {
        self.schema = mem::replace(&mut self.last, Seq::new(alloc));
    }
}
