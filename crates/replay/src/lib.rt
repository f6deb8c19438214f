// A list of calls on a held frame and its ledger, made one after the other.
#![tactic(auto)]

ghost use Rattle.std.specs.Prelude.{◌≡◌, map, ◌++◌, length, drop};
ghost use Rattle.model.specs.Run.{state_of, step};
ghost use Rattle.replay.specs.Replay.{ledger_reply, reply_of, call_of, call_count, played, answer_numbers};

use calendar::Date;
use refusal::Refusal;

// What a call gave: 0 or the refusal's number, and the number of lines after it.
#[derive(Clone, Copy)]
struct Reply {
    refusal: u32,
    lines: u64,
}

fn ledger_reply(lines: u64, answer: Result<u64, Refusal>) -> Reply
    ensures { result ≡ ledger_reply lines answer }
{
    match answer {
        Ok(next) => Reply {
            refusal: 0,
            lines: next,
        },
        Err(r) => Reply {
            refusal: refusal::number_of(r),
            lines,
        },
    }
}

// One call: 0 a correction of pixel a to the count b, 1 a keep entry of the date a, b, c, 2 a withdrawal, 3 an amending to the count b, 4 a compaction,
// any other kind a purge question. The numbers are the caller's (specs/Replay.antt, call_of), so the match is on them.
#[tactic(auto, unfolding(crate::specs::Replay::call_of, model::specs::Run::step))]
fn make_call(
    held: &mut [u8],
    ledger: &mut [u8],
    lines: u64,
    kind: u32,
    a: u32,
    b: u32,
    c: u32,
) -> Reply
    ensures value { result ≡ reply_of (step (call_of kind a b c) (state_of held.old ledger.old lines)).reply }
    ensures held_after { held.new ≡ (step (call_of kind a b c) (state_of held.old ledger.old lines)).state.held }
    ensures ledger_after { ledger.new ≡ (step (call_of kind a b c) (state_of held.old ledger.old lines)).state.ledger }
{
    let date = Date {
        year: a,
        month: b,
        day: c,
    };
    match kind {
        0 => ledger_reply(lines, archive::correct(held, ledger, lines, a as u64, b)),
        1 => ledger_reply(lines, ledger::keep(ledger, lines, date)),
        2 => ledger_reply(lines, archive::withdraw(held, ledger, lines)),
        3 => ledger_reply(lines, archive::amend(held, ledger, lines, b)),
        4 => ledger_reply(lines, compaction::compact(ledger, lines)),
        _ => ledger_reply(
            lines,
            ledger::may_purge(ledger, lines, date).map(|()| lines),
        ),
    }
}

// As many calls as there are four numbers for and replies have places for.
#[tactic(auto, unfolding(crate::specs::Replay::call_count))]
fn call_count(calls: &[u32], replies: &[u32]) -> usize
    ensures { result ≡ call_count (length calls.now) (length replies.now) }
{
    (calls.len() / 4).min(replies.len())
}

// Makes the calls in their order, four numbers each. Each reply is 0 or the refusal's number; the answer is the number of lines afterwards.
pub fn replay(
    held: &mut [u8],
    ledger: &mut [u8],
    lines: u64,
    calls: &[u32],
    replies: &mut [u32],
) -> u64
    ensures value { result ≡ (played held.old ledger.old lines calls.now (call_count (length calls.now) (length replies.old))).state.lines }
    ensures held_after { held.new ≡ (played held.old ledger.old lines calls.now (call_count (length calls.now) (length replies.old))).state.held }
    ensures ledger_after { ledger.new ≡ (played held.old ledger.old lines calls.now (call_count (length calls.now) (length replies.old))).state.ledger }
    ensures replies_after { replies.new ≡ answer_numbers (played held.old ledger.old lines calls.now (call_count (length calls.now) (length replies.old))).replies ++ drop (call_count (length calls.now) (length replies.old)) replies.old }
{
    let n = call_count(calls, replies);
    let mut used = lines;
    for i in 0..n {
        let at = i * 4;
        let r = make_call(
            held,
            ledger,
            used,
            calls[at],
            calls[at + 1],
            calls[at + 2],
            calls[at + 3],
        );
        replies[i] = r.refusal;
        used = r.lines;
    }
    used
}
