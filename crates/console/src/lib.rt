// A program's standard input and output, as bytes: a stream read into a fixed buffer, and bytes and numbers written.
#![tactic(auto)]

ghost use Rattle.std.specs.Prelude.{◌≡◌, ◌/◌, ◌%◌, ◌<◌, ◌≤◌, ◌++◌, length, take, false, IfOk, OnOk};
ghost use Rattle.std.specs.Io.KnownBytes.{Appends, Consumes, IsAtEnd};
ghost use Rattle.std.specs.Fmt.{decimal, digit_glyph};
ghost use Rattle.console.specs.Hex.{hex_pair};

use std::io;
use std::io::{BufWriter, Read, Stdout, Write};

// A program's standard output. What it holds back is written by `flush`, and at the latest when it is dropped.
pub type Output = BufWriter<Stdout>;

pub fn output(rt: &HostRuntime) -> io::Result<Output> {
    BufWriter::new(rt.alloc(), rt.stdout())
}

// Reads until the buffer is full or the stream ends, by a while: each read gives as many bytes as it likes, so nothing counts the turns. The answer: how many bytes, which are the front of what the stream had left.
pub fn read_full<R: Read>(from: &mut R, buf: &mut [u8]) -> io::Result<usize>
    ensures bound { IfOk result (λ n. n ≤ length buf.new) }
    ensures length { length buf.new ≡ length buf.old }
    ensures bytes { IfOk result (λ n. Consumes (R.remaining from.old) (R.remaining from.new) (take n buf.new)) }
    ensures end { IfOk result (λ n. n < length buf.new → IsAtEnd (R.remaining from.new)) }
{
    let mut done = 0;
    while done < buf.len() {
        let n = from.read(&mut buf[done..])?;
        if n == 0 {
            return Ok(done);
        }
        done += n;
    }
    Ok(done)
}

// The digits of a number, with no zeros in front.
pub fn print_decimal<W: Write>(to: &mut W, n: u64) -> io::Result<()>
    ensures { OnOk result (Appends (W.contents to.old) (W.contents to.new) (decimal n)) }
{
    write!(to, "{n}")
}

// A hexadecimal digit.
fn digit(d: u8) -> u8
    requires { d < 16 }
    ensures { result ≡ digit_glyph false d }
{
    if d < 10 { b'0' + d } else { b'a' + (d - 10) }
}

// A byte as two hexadecimal digits, in lower case.
pub fn print_hex<W: Write>(to: &mut W, byte: u8) -> io::Result<()>
    ensures { OnOk result (Appends (W.contents to.old) (W.contents to.new) (hex_pair byte)) }
{
    to.write_all(&[digit(byte / 16), digit(byte % 16)])
}

// Four bytes as eight hexadecimal digits, the most significant first.
pub fn print_hex_word<W: Write>(to: &mut W, n: u32) -> io::Result<()>
    ensures { OnOk result (Appends (W.contents to.old) (W.contents to.new) (hex_pair (n / 16777216) ++ hex_pair (n / 65536 % 256) ++ hex_pair (n / 256 % 256) ++ hex_pair (n % 256))) }
{
    print_hex(to, (n / 16777216) as u8)?;
    print_hex(to, (n / 65536 % 256) as u8)?;
    print_hex(to, (n / 256 % 256) as u8)?;
    print_hex(to, (n % 256) as u8)
}
