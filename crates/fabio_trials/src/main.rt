// Reads each frame that its arguments name, all written by FabIO, and prints the pixels. The stored output is FabIO's own reading.
#![tactic(auto)]

use console::Output;
use layout::Frame;
use std::fs::File;
use std::io::Write;
use std::{env, fs, io};

// Numbers, each behind a space.
fn show_pixels(stdout: &mut Output, pixels: &[u32]) -> io::Result<()> {
    for v in pixels {
        write!(stdout, " {v}")?;
    }
    Ok(())
}

// The frame's pixels stand at the front of the array.
fn show_frame(stdout: &mut Output, frame: &[u8]) -> io::Result<()> {
    let mut pixels = [0u32; 4224];
    match reader::read(frame, &mut pixels) {
        Ok(Frame { rows, columns, end }) => {
            write!(stdout, ": {rows} x {columns}, end {end}:")?;
            let n = (rows as usize) * (columns as usize);
            show_pixels(stdout, pixels.get(..n).unwrap_or(&[]))?;
        }
        Err(r) => write!(stdout, ": refused {}", refusal::number_of(r))?,
    }
    writeln!(stdout)
}

// A frame of at most 65,536 bytes.
fn show_file(stdout: &mut Output, file: &mut File) -> io::Result<()> {
    let mut frame = [0u8; 65536];
    let n = console::read_full(file, &mut frame)?;
    show_frame(stdout, &frame[..n])
}

// An error's words, without its number.
fn words(text: &str) -> &str {
    match text.split_once(" (os error ") {
        Some((before, _)) => before,
        None => text,
    }
}

// Says on standard error why a file is not read.
fn fail(rt: &HostRuntime, path: &str, error: io::Error) -> io::Result<()> {
    let text = format!(in rt.alloc(); "{error}")?;
    let why = words(text.as_str());
    eprintln!(rt; "{path}: {why}")
}

fn show_argument(rt: &HostRuntime, stdout: &mut Output, path: &str) -> io::Result<()> {
    stdout.write_all(path.as_bytes())?;
    match fs::open(rt, path) {
        Ok(mut file) => show_file(stdout, &mut file),
        Err(e) => fail(rt, path, e),
    }
}

fn show_arguments(rt: &HostRuntime, stdout: &mut Output) -> io::Result<()> {
    for path in env::args(rt)?.skip(1) {
        show_argument(rt, stdout, path.as_str())?;
    }
    Ok(())
}

fn main(rt: HostRuntime) -> io::Result<()> {
    let mut stdout = console::output(&rt)?;
    show_arguments(&rt, &mut stdout)?;
    stdout.flush()
}
