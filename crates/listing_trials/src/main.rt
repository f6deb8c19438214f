// The listing's trials: the length of the text, and its last bytes.
#![tactic(auto)]

use console::Output;
use std::io;
use std::io::Write;

// The text, or its last 80 bytes.
fn print_end(stdout: &mut Output, text: &[u8]) -> io::Result<()> {
    let Some(end) = text.last_chunk::<80>() else {
        return stdout.write_all(text);
    };
    if 80 < text.len() {
        stdout.write_all(b"..")?;
    }
    stdout.write_all(end)
}

fn show(stdout: &mut Output, label: &str, ledger: &[u8], out: &mut [u8]) -> io::Result<()> {
    let Some(used) = listing::list(ledger, out) else {
        return writeln!(stdout, "{label}: too short");
    };
    writeln!(stdout, "{label}: {used} bytes")?;
    let start = out.len() - used;
    print_end(stdout, &out[start..])
}

// Makes each line from a withdrawal. (Zeros are a correction of pixel 0 from 0 to 0.)
fn withdraw_from(ledger: &mut [u8], from: usize) {
    for kind in ledger.iter_mut().skip(from).step_by(16) {
        *kind = 0x80;
    }
}

const SHORT: [(&str, &[u8]); 5] = [
    ("no input", b""),
    ("one byte", b"\x00"),
    (
        "a line and a byte",
        b"\x00\x00\x00\x00\x00\x00\x00\x00\x00\x00\x00\x00\x00\x00\x00\x00\x00",
    ),
    (
        "keep, withdrawal",
        b"\x5f\xbe\xc4\x00\x00\x00\x00\x00\x00\x00\x00\x00\x00\x00\x00\x00\x80\x00\x00\x00\x00\x00\x00\x00\x00\x00\x00\x00\x00\x00\x00\x00",
    ),
    (
        "withdrawal alone",
        b"\x80\x00\x00\x00\x00\x00\x00\x00\x00\x00\x00\x00\x00\x00\x00\x00",
    ),
];

fn short(stdout: &mut Output, out: &mut [u8]) -> io::Result<()> {
    for (label, ledger) in &SHORT {
        show(stdout, label, ledger, out)?;
    }
    Ok(())
}

fn long(stdout: &mut Output, ledger: &mut [u8; 65552], out: &mut [u8]) -> io::Result<()> {
    show(stdout, "4,096 lines", &ledger[..65536], out)?;
    show(stdout, "4,096 lines and a byte", &ledger[..65537], out)?;
    show(stdout, "4,097 lines", &ledger[..], out)?;
    withdraw_from(&mut ledger[..], 32768);
    show(
        stdout,
        "2,048 corrections and as many withdrawals",
        &ledger[..65536],
        out,
    )?;
    show(stdout, "the last of them gone", &ledger[..65520], out)
}

fn main(rt: HostRuntime) -> io::Result<()> {
    let mut stdout = console::output(&rt)?;
    let mut ledger = [0u8; 65552];
    let mut out = [0u8; 327712];
    short(&mut stdout, &mut out)?;
    long(&mut stdout, &mut ledger, &mut out)?;
    let line = [0u8; 16];
    let mut small = [0u8; 111];
    show(&mut stdout, "one line, 111 bytes lent", &line, &mut small)?;
    let mut enough = [0u8; 112];
    show(&mut stdout, "one line, 112 bytes lent", &line, &mut enough)?;
    stdout.flush()
}
