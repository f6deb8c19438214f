// The ledger's trials: prints the refusal number, or 0, that each call gives.
#![tactic(auto)]

use calendar::Date;
use console::Output;
use std::io;
use std::io::Write;

// A keep line until 2 November 2031, and the day behind it.
const UNTIL: [u8; 16] = *b"\x5f\xbe\xc4\x00\x00\x00\x00\x00\x00\x00\x00\x00\x00\x00\x00\x00";

const BEHIND: Date = Date {
    year: 2031,
    month: 11,
    day: 3,
};

// Years, months and days of keep entries.
const DATES: [(u32, u32, u32); 16] = [
    (1900, 2, 29),
    (2000, 2, 29),
    (2024, 2, 29),
    (4000, 2, 29),
    (2023, 2, 29),
    (2031, 0, 10),
    (2031, 13, 10),
    (2031, 11, 0),
    (2031, 11, 30),
    (2031, 11, 31),
    (2031, 12, 31),
    (2031, 12, 32),
    (0, 1, 1),
    (1, 1, 1),
    (4095, 12, 31),
    (4096, 1, 1),
];

// Ledgers of one malformed line.
const MALFORMED: [(&str, &[u8]); 21] = [
    (
        "correction, year 1",
        b"\x00\x04\x00\x00\x00\x22\x00\x00\x02\x58\x00\x00\x02\x5a\x00\x00",
    ),
    (
        "correction, month 1",
        b"\x00\x00\x40\x00\x00\x22\x00\x00\x02\x58\x00\x00\x02\x5a\x00\x00",
    ),
    (
        "correction, day 1",
        b"\x00\x00\x02\x00\x00\x22\x00\x00\x02\x58\x00\x00\x02\x5a\x00\x00",
    ),
    (
        "correction, first spare bit",
        b"\x00\x00\x00\x00\x00\x22\x00\x00\x02\x58\x00\x00\x02\x5b\x00\x00",
    ),
    (
        "correction, last spare bit",
        b"\x00\x00\x00\x00\x00\x22\x00\x00\x02\x58\x00\x00\x02\x5a\x00\x01",
    ),
    (
        "keep, month 13",
        b"\x5f\xbf\x44\x00\x00\x00\x00\x00\x00\x00\x00\x00\x00\x00\x00\x00",
    ),
    (
        "keep, 30 February",
        b"\x5f\xa0\xbc\x00\x00\x00\x00\x00\x00\x00\x00\x00\x00\x00\x00\x00",
    ),
    (
        "keep, year 0",
        b"\x40\x02\xc4\x00\x00\x00\x00\x00\x00\x00\x00\x00\x00\x00\x00\x00",
    ),
    (
        "keep, pixel 1",
        b"\x5f\xbe\xc4\x00\x00\x02\x00\x00\x00\x00\x00\x00\x00\x00\x00\x00",
    ),
    (
        "keep, old 1",
        b"\x5f\xbe\xc4\x00\x00\x00\x00\x00\x00\x02\x00\x00\x00\x00\x00\x00",
    ),
    (
        "keep, old 32768",
        b"\x5f\xbe\xc4\x00\x00\x00\x00\x01\x00\x00\x00\x00\x00\x00\x00\x00",
    ),
    (
        "keep, new 1",
        b"\x5f\xbe\xc4\x00\x00\x00\x00\x00\x00\x00\x00\x00\x00\x02\x00\x00",
    ),
    (
        "keep, spare bit",
        b"\x5f\xbe\xc4\x00\x00\x00\x00\x00\x00\x00\x00\x00\x00\x00\x00\x01",
    ),
    (
        "withdrawal, year 1",
        b"\x80\x04\x00\x00\x00\x00\x00\x00\x00\x00\x00\x00\x00\x00\x00\x00",
    ),
    (
        "withdrawal, month 1",
        b"\x80\x00\x40\x00\x00\x00\x00\x00\x00\x00\x00\x00\x00\x00\x00\x00",
    ),
    (
        "withdrawal, day 1",
        b"\x80\x00\x02\x00\x00\x00\x00\x00\x00\x00\x00\x00\x00\x00\x00\x00",
    ),
    (
        "withdrawal, pixel 1",
        b"\x80\x00\x00\x00\x00\x02\x00\x00\x00\x00\x00\x00\x00\x00\x00\x00",
    ),
    (
        "withdrawal, old 1",
        b"\x80\x00\x00\x00\x00\x00\x00\x00\x00\x02\x00\x00\x00\x00\x00\x00",
    ),
    (
        "withdrawal, new 1",
        b"\x80\x00\x00\x00\x00\x00\x00\x00\x00\x00\x00\x00\x00\x02\x00\x00",
    ),
    (
        "withdrawal, spare bit",
        b"\x80\x00\x00\x00\x00\x00\x00\x00\x00\x00\x00\x00\x00\x00\x00\x01",
    ),
    (
        "kind 3",
        b"\xc0\x00\x00\x00\x00\x00\x00\x00\x00\x00\x00\x00\x00\x00\x00\x00",
    ),
];

// Ledgers in which a keep line stands or none does.
const STANDING: [(&str, &[u8]); 10] = [
    (
        "a correction only",
        b"\x00\x00\x00\x00\x00\x22\x00\x00\x02\x58\x00\x00\x02\x5a\x00\x00",
    ),
    (
        "keep, withdrawal",
        b"\x5f\xbe\xc4\x00\x00\x00\x00\x00\x00\x00\x00\x00\x00\x00\x00\x00\x80\x00\x00\x00\x00\x00\x00\x00\x00\x00\x00\x00\x00\x00\x00\x00",
    ),
    (
        "keep, later keep, withdrawal",
        b"\x5f\xbe\xc4\x00\x00\x00\x00\x00\x00\x00\x00\x00\x00\x00\x00\x00\x5f\xe0\x42\x00\x00\x00\x00\x00\x00\x00\x00\x00\x00\x00\x00\x00\x80\x00\x00\x00\x00\x00\x00\x00\x00\x00\x00\x00\x00\x00\x00\x00",
    ),
    (
        "keep, correction",
        b"\x5f\xbe\xc4\x00\x00\x00\x00\x00\x00\x00\x00\x00\x00\x00\x00\x00\x00\x00\x00\x00\x00\x22\x00\x00\x02\x58\x00\x00\x02\x5a\x00\x00",
    ),
    (
        "later keep, keep",
        b"\x5f\xe0\x42\x00\x00\x00\x00\x00\x00\x00\x00\x00\x00\x00\x00\x00\x5f\xbe\xc4\x00\x00\x00\x00\x00\x00\x00\x00\x00\x00\x00\x00\x00",
    ),
    (
        "keep, later keep",
        b"\x5f\xbe\xc4\x00\x00\x00\x00\x00\x00\x00\x00\x00\x00\x00\x00\x00\x5f\xe0\x42\x00\x00\x00\x00\x00\x00\x00\x00\x00\x00\x00\x00\x00",
    ),
    (
        "withdrawal alone",
        b"\x80\x00\x00\x00\x00\x00\x00\x00\x00\x00\x00\x00\x00\x00\x00\x00",
    ),
    (
        "correction, two withdrawals",
        b"\x00\x00\x00\x00\x00\x22\x00\x00\x02\x58\x00\x00\x02\x5a\x00\x00\x80\x00\x00\x00\x00\x00\x00\x00\x00\x00\x00\x00\x00\x00\x00\x00\x80\x00\x00\x00\x00\x00\x00\x00\x00\x00\x00\x00\x00\x00\x00\x00",
    ),
    (
        "two withdrawals, two keep lines",
        b"\x80\x00\x00\x00\x00\x00\x00\x00\x00\x00\x00\x00\x00\x00\x00\x00\x80\x00\x00\x00\x00\x00\x00\x00\x00\x00\x00\x00\x00\x00\x00\x00\x5f\xbe\xc4\x00\x00\x00\x00\x00\x00\x00\x00\x00\x00\x00\x00\x00\x5f\xbe\xc4\x00\x00\x00\x00\x00\x00\x00\x00\x00\x00\x00\x00\x00",
    ),
    (
        "correction, keep, correction, two withdrawals",
        b"\x00\x00\x00\x00\x00\x22\x00\x00\x02\x58\x00\x00\x02\x5a\x00\x00\x5f\xbe\xc4\x00\x00\x00\x00\x00\x00\x00\x00\x00\x00\x00\x00\x00\x00\x00\x00\x00\x00\x22\x00\x00\x02\x58\x00\x00\x02\x5a\x00\x00\x80\x00\x00\x00\x00\x00\x00\x00\x00\x00\x00\x00\x00\x00\x00\x00\x80\x00\x00\x00\x00\x00\x00\x00\x00\x00\x00\x00\x00\x00\x00\x00",
    ),
];

// Purge questions on other days, of the keep line.
const DAYS: [(&str, (u32, u32, u32)); 6] = [
    ("asked on the day", (2031, 11, 2)),
    ("asked the day after", (2031, 11, 3)),
    ("asked the month before", (2031, 10, 31)),
    ("asked the month after", (2031, 12, 1)),
    ("asked the year before", (2030, 12, 31)),
    ("asked on no date", (2031, 11, 31)),
];

// More lines claimed than the keep line.
const CLAIMS: [(&str, u64); 4] = [
    ("two lines claimed of one", 2),
    ("two to the 60 lines claimed", 1152921504606846976),
    ("two to the 60 and 1 claimed", 1152921504606846977),
    ("two to the 64 less 1 claimed", 18446744073709551615),
];

fn date(year: u32, month: u32, day: u32) -> Date {
    Date { year, month, day }
}

fn say(stdout: &mut Output, label: &str, number: u32) -> io::Result<()> {
    writeln!(stdout, "{label}: {number}")
}

fn ask(stdout: &mut Output, label: &str, ledger: &[u8], lines: u64, day: Date) -> io::Result<()> {
    say(
        stdout,
        label,
        cases::number_of(ledger::may_purge(ledger, lines, day)),
    )
}

// Purge questions the day after, of all lines of each ledger.
fn ask_each(stdout: &mut Output, ledgers: &[(&str, &[u8])]) -> io::Result<()> {
    for (label, ledger) in ledgers {
        ask(stdout, label, ledger, (ledger.len() / 16) as u64, BEHIND)?;
    }
    Ok(())
}

// Keep entries into an empty ledger.
fn dates(stdout: &mut Output) -> io::Result<()> {
    for (year, month, day) in &DATES {
        let mut bytes = [0u8; 16];
        let answer = ledger::keep(&mut bytes, 0, date(*year, *month, *day));
        let number = cases::number_of(answer);
        writeln!(stdout, "keep {year:04}-{month:02}-{day:02}: {number}")?;
    }
    Ok(())
}

fn days(stdout: &mut Output) -> io::Result<()> {
    ask(stdout, "no lines", &UNTIL, 0, BEHIND)?;
    for (label, (year, month, day)) in &DAYS {
        ask(stdout, label, &UNTIL, 1, date(*year, *month, *day))?;
    }
    Ok(())
}

fn claims(stdout: &mut Output) -> io::Result<()> {
    ask(
        stdout,
        "a malformed line that is not claimed",
        b"\x5f\xbe\xc4\x00\x00\x00\x00\x00\x00\x00\x00\x00\x00\x00\x00\x00\xc0\x00\x00\x00\x00\x00\x00\x00\x00\x00\x00\x00\x00\x00\x00\x00",
        1,
        BEHIND,
    )?;
    for (label, lines) in &CLAIMS {
        ask(stdout, label, &UNTIL, *lines, BEHIND)?;
    }
    ask(
        stdout,
        "malformed and no date",
        b"\xc0\x00\x00\x00\x00\x00\x00\x00\x00\x00\x00\x00\x00\x00\x00\x00",
        1,
        date(2031, 11, 31),
    )
}

// Bytes as hexadecimal digits.
fn show_bytes(stdout: &mut Output, bytes: &[u8]) -> io::Result<()> {
    for byte in bytes {
        console::print_hex(stdout, *byte)?;
    }
    Ok(())
}

// A keep entry: the answer, the lines after it, and the bytes after it.
fn enter(
    stdout: &mut Output,
    label: &str,
    bytes: &mut [u8],
    lines: u64,
    day: Date,
) -> io::Result<()> {
    let answer = ledger::keep(bytes, lines, day);
    say(stdout, label, cases::number_of(answer))?;
    write!(stdout, "lines {}, bytes ", answer.unwrap_or(lines))?;
    show_bytes(stdout, bytes)?;
    writeln!(stdout)
}

fn keep_entries(stdout: &mut Output) -> io::Result<()> {
    let mut empty = [0u8; 20];
    enter(stdout, "first line", &mut empty, 0, date(2031, 11, 2))?;
    let mut second =
        *b"\x5f\xbe\xc4\x00\x00\x00\x00\x00\x00\x00\x00\x00\x00\x00\x00\x00\xff\xff\xff\xff\xff\xff\xff\xff\xff\xff\xff\xff\xff\xff\xff\xff\xff\xff\xff\xff\xff\xff\xff\xff";
    enter(stdout, "second line", &mut second, 1, date(1, 1, 1))?;
    let mut full = UNTIL;
    enter(stdout, "full", &mut full, 1, date(2031, 11, 2))?;
    let mut odd = [0u8; 15];
    enter(stdout, "no whole line", &mut odd, 0, date(2031, 11, 2))
}

fn refused_entries(stdout: &mut Output) -> io::Result<()> {
    let mut broken = *b"\xc0\x00\x00\x00\x00\x00\x00\x00\x00\x00\x00\x00\x00\x00\x00\x00";
    enter(
        stdout,
        "malformed, no date and full",
        &mut broken,
        1,
        date(2031, 11, 31),
    )?;
    let mut no_date = UNTIL;
    enter(
        stdout,
        "no date and full",
        &mut no_date,
        1,
        date(2031, 11, 31),
    )?;
    let mut claimed = UNTIL;
    enter(
        stdout,
        "more claimed",
        &mut claimed,
        18446744073709551615,
        date(2031, 11, 2),
    )
}

// A ledger of one keep line and 0 to 15 bytes after it: the purge question and a keep entry.
fn stray_bytes(stdout: &mut Output) -> io::Result<()> {
    let mut bytes =
        *b"\x5f\xbe\xc4\x00\x00\x00\x00\x00\x00\x00\x00\x00\x00\x00\x00\x00\xff\xff\xff\xff\xff\xff\xff\xff\xff\xff\xff\xff\xff\xff\xff";
    for end in 16..32 {
        write!(stdout, "{end}")?;
        ask(stdout, " bytes, purge", &bytes[..end], 1, BEHIND)?;
        let answer = ledger::keep(&mut bytes[..end], 1, BEHIND);
        say(stdout, "keep", cases::number_of(answer))?;
    }
    Ok(())
}

fn main(rt: HostRuntime) -> io::Result<()> {
    let mut stdout = console::output(&rt)?;
    dates(&mut stdout)?;
    ask_each(&mut stdout, &MALFORMED)?;
    days(&mut stdout)?;
    ask_each(&mut stdout, &STANDING)?;
    claims(&mut stdout)?;
    keep_entries(&mut stdout)?;
    refused_entries(&mut stdout)?;
    stray_bytes(&mut stdout)?;
    stdout.flush()
}
