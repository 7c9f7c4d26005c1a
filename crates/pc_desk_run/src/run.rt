ghost use Rattle.std.specs.Prelude.{◌≡◌, ◌≤◌, ◌+◌, map, string_bytes};
ghost use Rattle.pc_files.specs.Loading.{reading_of};
ghost use Rattle.pc_files.specs.Writing.{writing_of};
ghost use Rattle.pc_desk_run.specs.declared.ended.Ended.TheVariants as ends;
ghost use Rattle.pc_desk_run.specs.Meaning.{Delivers, IsNoted, KeepsPromise, call_of};

use crate::ended::Ended;
use crate::reply::{Reply, respond};
use pc_base::{Put, Shelf, Sink};
use pc_desk_answers::Watch;
use pc_files::put_text;
use std::alloc::Global;

/// Does what the words ask: loads the files, each at most once, and writes what was asked for to `out` by one put, or says to
/// `notes` why not. The watch is told how far a run has come that gives many answers.
pub fn desk<F: Shelf, K: Sink, N: Sink, W: Watch>(
    alloc: Global,
    words: &[String],
    files: &mut F,
    out: &mut K,
    notes: &mut N,
    watch: &mut W,
) -> Ended
    ensures promise { KeepsPromise (call_of (map string_bytes words.now) (reading_of F.told F.leads files.old files.new) (writing_of K.told out.old out.new) (writing_of N.told notes.old notes.new)) result }
{
    match respond(alloc, words, files, watch) {
        Ok(reply) => deliver(&reply, out, notes),
        Err(_) => out_of_memory(notes),
    }
}

fn deliver<K: Sink, N: Sink>(reply: &Reply, out: &mut K, notes: &mut N) -> Ended
    ensures delivers { Delivers (writing_of K.told out.old out.new) (writing_of N.told notes.old notes.new) reply.now result }
{
    match reply {
        Reply::Says { ended, text, note } => match put_text(out, text.as_slice()) {
            Put::All => {
                tell(notes, note.as_slice());
                *ended
            }
            Put::Failed => {
                tell(notes, b"write fault: standard output\n");
                Ended::WriteFault
            }
            Put::Memory => out_of_memory(notes),
        },
        Reply::Refuses { ended, text } => {
            tell(notes, text.as_slice());
            *ended
        }
    }
}

fn out_of_memory<N: Sink>(notes: &mut N) -> Ended
    ensures { result ≡ ends.Memory }
{
    tell(notes, b"out of memory\n");
    Ended::Memory
}

// An empty text is not put.
fn tell<N: Sink>(notes: &mut N, text: &[u8])
    ensures { IsNoted (writing_of N.told notes.old notes.new) text.now }
{
    match text {
        [] => (),
        _ => {
            put_text(notes, text);
        }
    }
}
