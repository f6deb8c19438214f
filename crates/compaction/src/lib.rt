// Compaction of a ledger: its standing lines alone.
#![tactic(auto)]

ghost use Rattle.std.specs.Prelude.{◌≡◌, false, ◌/◌, ◌≤◌, length};
ghost use Rattle.ledger.specs.Lines.{some_malformed};
ghost use Rattle.compaction.specs.Compact.{compact_answer, compact_bytes};
ghost use Rattle.compaction.specs.Gather.{Gathered};

use refusal::Refusal;

// Moves the lines that stand, of the first `lines`, to the last of their places, in one pass from the last to the first. The answer is the first place taken.
// A line's kind is the two highest bits of its first byte, 2 for a withdrawal.
fn gather(ledger: &mut [u8], lines: usize) -> usize
    requires { (lines ≤ length ledger.old / 16) × (some_malformed lines ledger.old ≡ false) }
    ensures { Gathered ledger.old lines ledger.new result }
{
    let mut skip: usize = 0;
    let mut to = lines;
    for i in (0..lines).rev() {
        if ledger[i * 16] / 64 == 2 {
            skip += 1;
        } else if 0 < skip {
            skip -= 1;
        } else {
            to -= 1;
            splice::copy_within(ledger, i * 16, to * 16, 16);
        }
    }
    to
}

// Leaves the standing lines alone, in their order, and clears the bytes of the others.
pub fn compact(ledger: &mut [u8], lines: u64) -> Result<u64, Refusal>
    ensures value { result ≡ compact_answer ledger.old lines }
    ensures ledger_after { ledger.new ≡ compact_bytes ledger.old lines }
{
    ledger::survey(ledger, lines).ok_or(Refusal::LedgerMalformed)?;
    let n = lines as usize;
    let first = gather(ledger, n);
    splice::drop_front(&mut ledger[..n * 16], first * 16);
    Ok((n - first) as u64)
}
