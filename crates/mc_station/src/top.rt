//! The top call.
ghost use Rattle.std.specs.Prelude.{◌≡◌, ◌≢◌, ◌⊎◌, ◌≤◌, IfOk, OnErr, OnOk, length};
ghost use Rattle.mc_port.specs.Causes.{Rose};
ghost use Rattle.mc_port.specs.Sink.{Puts};
ghost use Rattle.mc_station.specs.Calls.{CallsFor, IsKnown, LeadsTo, call_of};
ghost use Rattle.mc_station.specs.Outcome.{PutPart, PutWhole, Told, ToldPart};
ghost use Rattle.station_replies.specs.Reply.{Reply as CalledFor};
ghost use Rattle.mc_station.specs.Replied.{outcome_of, seen_reply};
ghost use Rattle.station_replies.specs.Status.{number_of};
ghost use Rattle.station_replies.specs.declared.status.Status.TheVariants.{CannotRead, OutOfMemory};

use crate::laws::one_reply;
use crate::means::Means;
use crate::reply::Reply;
use crate::run::run;
use crate::stage::first_stage;
use mc_command::line_of;
use mc_cover::Closer;
use mc_port::{Gate, PutFault, Sink, Store, Words};
use station_replies::Status;
use std::alloc::{AllocError, Global};
use std::thread::Threads;

// Puts the texts of a reply, up to the first piece that cannot be put.
fn put<K: Sink, E: Sink>(reply: &Reply<'_>, out: &mut K, diag: &mut E) -> Result<(), PutFault>
    ensures whole { OnOk result (PutWhole (seen_reply reply.now)
        (K.written out.old) (K.written out.new) (E.written diag.old) (E.written diag.new)) }
    ensures part { PutPart (seen_reply reply.now)
        (K.written out.old) (K.written out.new) (E.written diag.old) (E.written diag.new) }
    ensures unwritten { OnErr result (Rose (K.faults out.old) (K.faults out.new)
        ⊎ Rose (E.faults diag.old) (E.faults diag.new)) }
{
    reply.out.put(out)?;
    diag.put(&reply.diag)
}

// The reply to what the words ask for: all is decided here, and nothing is put. What a reply lends
// from stays with the caller: the words of the line, and the bytes of each file in a slot.
#[tactic(auto, using(crate::proofs::Order::few_requests))]
fn reply_to<'a, 'w, S: Store, R: Threads + Sync, G: Gate, C: Closer>(
    alloc: Global,
    means: Means<'_, R, G, C>,
    words: &'w Words,
    store: &mut S,
    read: &'a mut Vec<&'w str>,
    slots: &'a mut [Vec<u8>],
) -> Result<Reply<'a>, AllocError>
    requires { 3 ≤ length slots.old }
    ensures leads { LeadsTo (call_of words.now (C.skipped means.entry.closer.now)
        (S.state store.old)) (S.state store.old).asked
        (outcome_of result) (S.state store.new).asked }
    ensures unreadable { (outcome_of result).status ≡ CannotRead
        → Rose (S.state store.old).faults (S.state store.new).faults }
    ensures texts { IfOk result (λ reply. reply.status ≢ OutOfMemory) }
{
    let line = line_of(alloc, words)?;
    *read = line;
    let stage = first_stage(alloc, read)?;
    run(alloc, means, store, stage, slots)
}

/// Does what the words of a command line ask for, and gives the status of the program.
///
/// The command `report` puts on `out` the report of the tests and of the verdicts, `vectors` a line
/// for each test and one for each vector that some test evaluates, `instrument` the program with
/// its probes as C text, `record` what is kept of the tests, `merge` the record of two records,
/// `analyse` the report of a record, `selfload` the summary of a source that the program makes
/// itself, `watch` how much is recorded at each look and at the end, `reduce` the tests that are
/// kept, `mutate` which test kills which mutant, `list` the source with its marks, `functions` how
/// many obligations are met in each function, `needs` which vectors would show the missing ones,
/// `results` what each call of the tests did, and `adapt` the source that is made of a preprocessed
/// text. Everything is computed, and all memory taken, before the first `put`; a line is one `put`,
/// and of C text a token is one, and so is what stands after it.
///
/// Tests run on as many workers as the words ask for, each in a thread of its own where one can be
/// made; but for `mutate` there are no more workers than tests. A worker passes the gate with the
/// number of each test before it runs it, and the watcher of `watch` with 4,096 after its first
/// look and one more after each. Of the commands that run tests but `watch`, `mutate` and
/// `results` the closer makes the matrix of what was recorded; that of the program skips no test.
pub fn station<R: Threads + Sync, S: Store, K: Sink, E: Sink, G: Gate, C: Closer>(
    rt: &R,
    alloc: Global,
    words: &Words,
    store: &mut S,
    out: &mut K,
    diag: &mut E,
    gate: &G,
    closer: &C,
) -> u8
    // A status other than 7 is that of a reply to which words and files lead. Its texts were put
    // whole, and the store was asked for the files that it stands on, in order, each with its limit
    // and after the files before it were accepted. With 6 the line is on the last of them; with 8
    // there are no texts.
    ensures told { result ≢ 7
        → Told (call_of words.now (C.skipped closer.now) (S.state store.old)) result
        (S.state store.old).asked (S.state store.new).asked
        (K.written out.old) (K.written out.new) (E.written diag.old) (E.written diag.new) }

    // With 7 first parts of the texts of such a reply were put. Where they say that a file cannot
    // be read, the store failed in this call.
    ensures part { result ≡ 7
        → ToldPart (call_of words.now (C.skipped closer.now) (S.state store.old))
        (S.state store.old) (S.state store.new)
        (K.written out.old) (K.written out.new) (E.written diag.old) (E.written diag.new) }

    // 6 only where the store failed in this call.
    ensures unreadable { result ≡ 6 → Rose (S.state store.old).faults (S.state store.new).faults }

    // 7 only where a sink failed in this call.
    ensures unwritten { result ≡ 7 → Rose (K.faults out.old) (K.faults out.new)
        ⊎ Rose (E.faults diag.old) (E.faults diag.new) }

    // Where nothing failed, the status is that of the reply that is called for, or 8.
    ensures complete { (reply : CalledFor)
        → IsKnown (call_of words.now (C.skipped closer.now) (S.state store.old))
        → CallsFor (call_of words.now (C.skipped closer.now) (S.state store.old)) reply
        → ¬ (Rose (S.state store.old).faults (S.state store.new).faults)
        → ¬ (Rose (K.faults out.old) (K.faults out.new))
        → ¬ (Rose (E.faults diag.old) (E.faults diag.new))
        → (result ≡ number_of reply.status) ⊎ (result ≡ 8) }
{
    one_reply();
    let means = Means { rt, gate, closer };
    let mut line = Vec::new(alloc);
    // A slot for the bytes of each file; there is room for a command with three.
    let mut slots = [Vec::new(alloc), Vec::new(alloc), Vec::new(alloc)];
    match reply_to(alloc, means, words, store, &mut line, &mut slots) {
        Ok(reply) => match put(&reply, out, diag) {
            Ok(()) => reply.status.number(),
            Err(_) => Status::CannotWrite.number(),
        },
        Err(_) => Status::OutOfMemory.number(),
    }
}
