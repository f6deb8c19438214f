// Trials of mar header records: prints what each question for an entry answers, and what reading answers and leaves in a short array.
// Whole images do not fit a program's stack: the second reader has their trials.
#![tactic(auto)]

use byte_order::ByteOrder;
use console::Output;
use layout::Frame;
use mar_entry::EntryValue;
use std::io;
use std::io::Write;

// Headers of these sizes: the byte order, the side, the pairs and their records.
const SIZES: [(&str, ByteOrder, u32, u32, u32); 15] = [
    ("1200 little, 0 pairs", ByteOrder::Little, 1200, 0, 0),
    ("1200 big, 1 pair", ByteOrder::Big, 1200, 1, 1),
    ("1200 little, 300 pairs", ByteOrder::Little, 1200, 300, 1),
    ("1200 big, 301 pairs", ByteOrder::Big, 1200, 301, 2),
    (
        "1200 little, 301 pairs in 1 record",
        ByteOrder::Little,
        1200,
        301,
        1,
    ),
    (
        "1200 little, 300 pairs in 2 records",
        ByteOrder::Little,
        1200,
        300,
        2,
    ),
    ("2000 little, 500 pairs", ByteOrder::Little, 2000, 500, 1),
    ("2000 big, 501 pairs", ByteOrder::Big, 2000, 501, 2),
    (
        "2000 big, 500 pairs in 2 records",
        ByteOrder::Big,
        2000,
        500,
        2,
    ),
    (
        "1200 little, most pairs",
        ByteOrder::Little,
        1200,
        4294967295,
        14316558,
    ),
    (
        "2000 big, most pairs",
        ByteOrder::Big,
        2000,
        4294967295,
        8589935,
    ),
    (
        "1200 big, most pairs, a record less",
        ByteOrder::Big,
        1200,
        4294967295,
        14316557,
    ),
    ("1201", ByteOrder::Little, 1201, 0, 0),
    ("1199", ByteOrder::Big, 1199, 0, 0),
    ("0", ByteOrder::Big, 0, 0, 0),
];

// Headers of side 1200 with 300 pairs, a number of which is another one: its place, counted from 1, and the number.
const CHANGES: [(&str, usize, u32); 9] = [
    ("nothing changed", 1, 1200),
    ("second 2000", 2, 2000),
    ("third 2402", 3, 2402),
    ("fourth 7", 4, 7),
    ("fifth 301", 5, 301),
    ("fifth 0", 5, 0),
    ("sixth 0", 6, 0),
    ("first 2000", 1, 2000),
    ("first of middle bytes", 1, 78643200),
];

// The first bytes of a header of side 2000.
const CUTS: [(&str, ByteOrder, usize); 5] = [
    ("no bytes", ByteOrder::Little, 0),
    ("3 bytes", ByteOrder::Little, 3),
    ("4 bytes", ByteOrder::Little, 4),
    ("3999 bytes", ByteOrder::Big, 3999),
    ("4000 bytes", ByteOrder::Big, 4000),
];

// Bit patterns of entry 20.
const PATTERNS: [(&str, u32); 12] = [
    ("one", 1065353216),
    ("minus one", 3212836864),
    ("zero", 0),
    ("minus zero", 2147483648),
    ("smallest", 1),
    ("largest", 2139095039),
    ("infinity", 2139095040),
    ("minus infinity", 4286578688),
    ("first nan", 2139095041),
    ("quiet nan", 2143289345),
    ("minus nan", 4286578689),
    ("last nan", 4294967295),
];

// Copies the bytes into the file from a place on, as far as the file goes.
fn put(file: &mut [u8], from: usize, bytes: &[u8]) {
    for (to, byte) in file.iter_mut().skip(from).zip(bytes) {
        *to = *byte;
    }
}

// Number k of the header, counted from 1.
fn set(file: &mut [u8], order: ByteOrder, k: usize, v: u32) {
    let bytes = match order {
        ByteOrder::Little => v.to_le_bytes(),
        ByteOrder::Big => v.to_be_bytes(),
    };
    put(file, k.saturating_sub(1).saturating_mul(4), &bytes);
}

// The numbers that are compared.
fn set_sizes(file: &mut [u8], order: ByteOrder, side: u32, pairs: u32, records: u32) {
    set(file, order, 1, side);
    set(file, order, 2, side);
    set(file, order, 3, side.saturating_mul(2));
    set(file, order, 5, pairs);
    set(file, order, 6, records);
}

// How a float compares with 0, which a NaN does not.
fn sign(value: f32) -> &'static str {
    if value < 0.0 {
        "negative"
    } else if value > 0.0 {
        "positive"
    } else if value == 0.0 {
        "zero"
    } else {
        "nan"
    }
}

fn show_value(stdout: &mut Output, v: EntryValue) -> io::Result<()> {
    match v {
        EntryValue::Whole(n) => writeln!(stdout, "whole {n}"),
        EntryValue::Float { bits, value } => {
            write!(stdout, "float ")?;
            console::print_hex_word(stdout, bits)?;
            writeln!(stdout, " {}", sign(value))
        }
    }
}

fn ask(stdout: &mut Output, label: &str, file: &[u8], entry: u32) -> io::Result<()> {
    write!(stdout, "{label} entry {entry}: ")?;
    match mar_entry::read_entry(file, entry) {
        Ok(v) => show_value(stdout, v),
        Err(r) => writeln!(stdout, "refused {}", refusal::number_of(r)),
    }
}

// Numbers, each behind a space.
fn show_pixels(stdout: &mut Output, pixels: &[u32]) -> io::Result<()> {
    for v in pixels {
        write!(stdout, " {v}")?;
    }
    Ok(())
}

// Reading into an array of three nines.
fn read(stdout: &mut Output, label: &str, file: &[u8]) -> io::Result<()> {
    let mut pixels = [9u32; 3];
    match mar_image::read(file, &mut pixels) {
        Ok(Frame { rows, .. }) => write!(stdout, "{label} read: side {rows} [")?,
        Err(r) => write!(stdout, "{label} read: refused {} [", refusal::number_of(r))?,
    }
    show_pixels(stdout, &pixels)?;
    writeln!(stdout, " ]")
}

// Each header's first entry, and reading.
fn sizes(stdout: &mut Output) -> io::Result<()> {
    for (label, order, side, pairs, records) in &SIZES {
        let mut file = [0u8; 4000];
        set_sizes(&mut file, *order, *side, *pairs, *records);
        ask(stdout, label, &file, 1)?;
        read(stdout, label, &file)?;
    }
    Ok(())
}

fn changes(stdout: &mut Output) -> io::Result<()> {
    for (label, k, v) in &CHANGES {
        let mut file = [0u8; 4000];
        set_sizes(&mut file, ByteOrder::Little, 1200, 300, 1);
        set(&mut file, ByteOrder::Little, *k, *v);
        ask(stdout, label, &file, 25)?;
        ask(stdout, label, &file, 26)?;
        read(stdout, label, &file)?;
    }
    Ok(())
}

fn cuts(stdout: &mut Output) -> io::Result<()> {
    for (label, order, length) in &CUTS {
        let mut file = [0u8; 4000];
        set_sizes(&mut file, *order, 2000, 0, 0);
        let front = &file[..(*length).min(4000)];
        ask(stdout, label, front, 10)?;
        read(stdout, label, front)?;
    }
    Ok(())
}

// Each pattern in both byte orders.
fn patterns(stdout: &mut Output) -> io::Result<()> {
    for (label, bits) in &PATTERNS {
        let mut little = [0u8; 2400];
        set_sizes(&mut little, ByteOrder::Little, 1200, 0, 0);
        set(&mut little, ByteOrder::Little, 20, *bits);
        ask(stdout, label, &little, 20)?;
        let mut big = [0u8; 4000];
        set_sizes(&mut big, ByteOrder::Big, 2000, 0, 0);
        set(&mut big, ByteOrder::Big, 20, *bits);
        ask(stdout, label, &big, 20)?;
    }
    Ok(())
}

fn numbers(stdout: &mut Output) -> io::Result<()> {
    let mut file = [0u8; 2400];
    set_sizes(&mut file, ByteOrder::Big, 1200, 299, 1);
    set(&mut file, ByteOrder::Big, 4, 4000);
    set(&mut file, ByteOrder::Big, 10, 4294967295);
    set(&mut file, ByteOrder::Big, 11, 1069926810);
    set(&mut file, ByteOrder::Big, 25, 3212836864);
    for entry in [0u32, 1, 3, 4, 5, 6, 10, 11, 25, 26, 4294967295] {
        ask(stdout, "numbers", &file, entry)?;
    }
    Ok(())
}

fn main(rt: HostRuntime) -> io::Result<()> {
    let mut stdout = console::output(&rt)?;
    numbers(&mut stdout)?;
    sizes(&mut stdout)?;
    changes(&mut stdout)?;
    cuts(&mut stdout)?;
    patterns(&mut stdout)?;
    stdout.flush()
}
