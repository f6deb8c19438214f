// Numbers in either byte order.
#![tactic(auto)]

ghost use Rattle.std.specs.Prelude.{◌≡◌, ℕ, ◌+◌, ◌*◌, ◌/◌, ◌%◌, ◌<◌, ◌≤◌, length, drop, leb, if◌then◌else◌};
ghost use Rattle.lists.specs.Bytes.{little};
ghost use Rattle.lists.specs.Parts.{with_part};
ghost use Rattle.layout.specs.Form.{width_bytes};
ghost use Rattle.byte_order.specs.declared.ByteOrder.TheVariants.{Big, Little};
ghost use Rattle.byte_order.specs.Numbers.{number, numbers, number_at};
ghost use Rattle.std.proofs.Common.{rules};

use layout::Width;

// Least significant byte first, or most significant first.
#[derive(Clone, Copy)]
pub enum ByteOrder {
    Little,
    Big,
}

// The two bytes of a 16-bit number exchanged. By a product, since the compiler makes no vector instructions of a sum of single bytes.
fn exchanged(v: u16) -> u32
    ensures { result ≡ v % 256 * 256 + v / 256 }
{
    v as u32 * 65537 / 256 % 65536
}

// The 32-bit number at `at`, least significant byte first: a single load.
fn little32(t: &[u8], at: usize) -> u32
    requires { at + 4 ≤ length t.now }
    ensures { result ≡ little 4 (drop at t.now) }
{
    u32::from_le_bytes([t[at], t[at + 1], t[at + 2], t[at + 3]])
}

// How numbers lie in their bytes: the order, how many bytes, and the number at `at`.
trait Stored {
    ghost use Rattle.byte_order.specs.declared.ByteOrder.{ByteOrder};

    ghost order: { ByteOrder };

    ghost BYTES: { ℕ };

    const BYTES: usize;

    fn read(t: &[u8], at: usize) -> u32
        requires { at + BYTES ≤ length t.now }
        ensures { result ≡ number order BYTES (drop at t.now) };

    ghost few: { BYTES ≤ 4 };
}

struct Little2;

struct Big2;

struct Little4;

struct Big4;

impl Stored for Little2 {
    ghost order = { Little };

    ghost BYTES = { 2 };

    const BYTES: usize = 2;

    fn read(t: &[u8], at: usize) -> u32 {
        u32::from(u16::from_le_bytes([t[at], t[at + 1]]))
    }

    ghost few = { Prim.search rules };
}

impl Stored for Big2 {
    ghost order = { Big };

    ghost BYTES = { 2 };

    const BYTES: usize = 2;

    fn read(t: &[u8], at: usize) -> u32 {
        exchanged(u16::from_le_bytes([t[at], t[at + 1]]))
    }

    ghost few = { Prim.search rules };
}

impl Stored for Little4 {
    ghost order = { Little };

    ghost BYTES = { 4 };

    const BYTES: usize = 4;

    fn read(t: &[u8], at: usize) -> u32 {
        little32(t, at)
    }

    ghost few = { Prim.search rules };
}

// The compiler makes one exchange of the bytes, and vector instructions in a loop.
impl Stored for Big4 {
    ghost order = { Big };

    ghost BYTES = { 4 };

    const BYTES: usize = 4;

    fn read(t: &[u8], at: usize) -> u32 {
        little32(t, at).swap_bytes()
    }

    ghost few = { Prim.search rules };
}

// 32-bit number k of t, and 0 where t ends before it does.
pub fn number_at(t: &[u8], order: ByteOrder, k: usize) -> u32
    ensures { result ≡ number_at order 4 k t.now }
{
    if t.len() / 4 <= k {
        return 0;
    }
    let at = k * 4;
    match order {
        ByteOrder::Little => Little4::read(t, at),
        ByteOrder::Big => Big4::read(t, at),
    }
}

// As many numbers as out has places, if t has them.
fn load_stored<S: Stored>(t: &[u8], out: &mut [u32]) -> bool
    ensures value { result ≡ leb (length out.old * S.BYTES) (length t.now) }
    ensures out_after { out.new ≡ if◌then◌else◌ (leb (length out.old * S.BYTES) (length t.now)) (numbers S.order S.BYTES (length out.old) t.now) out.old }
{
    if t.len() < out.len() * S::BYTES {
        return false;
    }
    let mut at = 0;
    for place in out.iter_mut() {
        *place = S::read(t, at);
        at += S::BYTES;
    }
    true
}

// As many numbers as out has places, if t has them. Each order and width has a loop of its own: a second call of `table::load` here and the
// compiler makes one of both, whose width it does not know. A number of one byte is the same in both orders.
pub fn load(t: &[u8], order: ByteOrder, width: Width, out: &mut [u32]) -> bool
    ensures value { result ≡ leb (length out.old * width_bytes width) (length t.now) }
    ensures out_after { out.new ≡ if◌then◌else◌ (leb (length out.old * width_bytes width) (length t.now)) (numbers order (width_bytes width) (length out.old) t.now) out.old }
{
    match (width, order) {
        (Width::One, _) => table::load(t, Width::One, out),
        (Width::Two, ByteOrder::Little) => load_stored::<Little2>(t, out),
        (Width::Two, ByteOrder::Big) => load_stored::<Big2>(t, out),
        (Width::Four, ByteOrder::Little) => load_stored::<Little4>(t, out),
        (Width::Four, ByteOrder::Big) => load_stored::<Big4>(t, out),
    }
}

// Numbers p to e of t, into their places.
fn load_part(t: &[u8], order: ByteOrder, width: Width, p: usize, e: usize, out: &mut [u32])
    requires { (p ≤ e) × (e ≤ length out.old) × (length out.old * width_bytes width ≤ length t.now) }
    ensures { out.new ≡ with_part p e (numbers order (width_bytes width) (length out.old) t.now) out.old }
{
    let at = p * layout::width_bytes(width);
    load(&t[at..], order, width, &mut out[p..e]);
}

// The two halves side by side, 256 numbers of each in turn. By hand, since the proof of a `for` over a `step_by` does not show that it ends.
fn load_both(t: &[u8], order: ByteOrder, width: Width, out: &mut [u32])
    requires { length out.old * width_bytes width ≤ length t.now }
    ensures { out.new ≡ numbers order (width_bytes width) (length out.old) t.now }
{
    let n = out.len();
    let half = n / 2;
    let mut p = 0;
    while p + 256 <= half {
        let e = p + 256;
        load_part(t, order, width, p, e, out);
        load_part(t, order, width, half + p, half + e, out);
        p = e;
    }
    load_part(t, order, width, p, half, out);
    load_part(t, order, width, half + p, n, out);
}

// What load does; more numbers than fit into near memory in two streams, which is faster than one.
pub fn load_halves(t: &[u8], order: ByteOrder, width: Width, out: &mut [u32]) -> bool
    ensures value { result ≡ leb (length out.old * width_bytes width) (length t.now) }
    ensures out_after { out.new ≡ if◌then◌else◌ (leb (length out.old * width_bytes width) (length t.now)) (numbers order (width_bytes width) (length out.old) t.now) out.old }
{
    let end = out.len() * layout::width_bytes(width);
    if t.len() < end {
        return false;
    }
    if out.len() <= 2097152 {
        return load(t, order, width, out);
    }
    load_both(t, order, width, out);
    true
}
