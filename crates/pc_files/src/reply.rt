ghost use Rattle.std.specs.Prelude.{◌≡◌, ◌≤◌, ◌+◌};
ghost use Rattle.pc_files.specs.Replies.{Ends};
ghost use Rattle.pc_files.specs.Writing.{writing_of};

use crate::writing::put_text;
use pc_base::{Put, Sink, Status};
use pc_list::Seq;
use pc_num::Memory;

/// How a run ends, and the text that it writes.
#[derive(Debug, Drop)]
pub struct Reply<S> {
    pub status: S,
    pub text: Seq<u8>,
}

/// How a run ends where its text is not written.
pub trait Ending: Copy {
    /// How one ends of which the text was cut off.
    ghost after_cut: { Self → Self };
    /// How one ends that has no memory.
    ghost spent: { Self };

    /// An answer that was cut off is a write fault; the line of a refusal stays what it says.
    fn cut_off(self) -> Self
        ensures { result ≡ after_cut self };

    fn no_memory() -> Self
        ensures { result ≡ spent };
}

impl Ending for Status {
    ghost use Rattle.pc_base.specs.declared.status.Status.TheVariants.{Memory};
    ghost use Rattle.pc_files.specs.Replies.{after_failed_put};

    ghost after_cut = { λ status. after_failed_put status };

    ghost spent = { Memory };

    fn cut_off(self) -> Status {
        match self {
            Status::Done | Status::SaidNo => Status::WriteFault,
            _ => self,
        }
    }

    fn no_memory() -> Status {
        Status::Memory
    }
}

/// Writes what is replied by one put, and nothing where there was no memory for a reply.
pub fn put_reply<S: Ending, K: Sink>(out: &mut K, reply: Result<Reply<S>, Memory>) -> S
    ensures ends { Ends S.after_cut S.spent (writing_of K.told out.old out.new) reply result }
    ensures puts { (K.told out.new).calls ≤ (K.told out.old).calls + 1 }
{
    let Ok(reply) = reply else {
        return S::no_memory();
    };
    match put_text(out, reply.text.as_slice()) {
        Put::All => reply.status,
        Put::Failed => reply.status.cut_off(),
        Put::Memory => S::no_memory(),
    }
}
