// Prints the listing of the ledger that it reads from standard input.
#![tactic(auto)]

use console::Output;
use std::io;
use std::io::Write;

fn show(stdout: &mut Output, ledger: &[u8], out: &mut [u8]) -> io::Result<()> {
    let Some(used) = listing::list(ledger, out) else {
        return Ok(());
    };
    let start = out.len() - used;
    stdout.write_all(&out[start..])
}

fn main(rt: HostRuntime) -> io::Result<()> {
    let mut stdout = console::output(&rt)?;
    // One byte more than the longest ledger, so that a longer one is seen; and 32 bytes and 80 for each of 4,096 lines.
    let mut ledger = [0u8; 65537];
    let mut out = [0u8; 327712];
    let n = console::read_full(&mut rt.stdin(), &mut ledger)?;
    show(&mut stdout, &ledger[..n], &mut out)?;
    stdout.flush()
}
