//! The run of a command, from the bytes of its files to the bytes that it writes.
#![tactic(auto)]

ghost use Rattle.std.specs.Prelude.{◌≤◌, ◌+◌, map, string_bytes};
ghost use Rattle.pc_run.specs.Replies.{AreLoadsFor};
ghost use Rattle.pc_files.specs.Writing.{writing_of};
ghost use Rattle.pc_run.specs.Meaning.{KeepsPromise, call_of};
ghost use Rattle.pc_files.specs.Loading.{reading_of};

mod follow;
mod input;
mod laws;
mod line;
mod making;
mod reply;
mod show;
mod verdict;

pub use laws::{
    conflicts_tell_their_answers, quantiles_tell_their_answers, reports_tell_their_answers,
    sessions_tell_their_answers,
};
use pc_base::{Shelf, Sink, Status};
use pc_files::put_reply;
use reply::respond;
use std::alloc::Global;

/// Runs the command that the words are: loads its files, each at most once, and writes its report or the line of a
/// refusal by at most one put.
pub fn run<F: Shelf, K: Sink>(alloc: Global, words: &[String], files: &mut F, out: &mut K) -> Status
    ensures promise { KeepsPromise (call_of (map string_bytes words.now) (reading_of F.told F.leads files.old files.new) (writing_of K.told out.old out.new)) result }
    ensures loads { AreLoadsFor (map string_bytes words.now) (F.told files.old) (F.told files.new) }
    ensures puts { (K.told out.new).calls ≤ (K.told out.old).calls + 1 }
{
    let reply = respond(alloc, words, files);
    put_reply(out, reply)
}
