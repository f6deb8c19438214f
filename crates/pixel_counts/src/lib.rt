// Pixels counted for their entries.
#![tactic(auto)]

ghost use Rattle.std.specs.Prelude.{◌≡◌, ℕ, ◌+◌, ◌^◌, ◌<◌, ◌≤◌, Bool, leb, length};
ghost use Rattle.lists.specs.Only.{only};
ghost use Rattle.pixel_counts.specs.Counts.{is_underflow, any_above255, counts_of, under_count, two_count, four_count, counts_for, no_counts, counted, counts_more, passing, passing_from, Answers};

use header_text::Counts;
use layout::{EntryWidth, Form, Underflow, Width};

// How many numbers pass, modulo 2^32. The body has no branch, so that the loop is made of vector instructions.
fn count_passing<F: Fn(u32) -> bool>(s: &[u32], passes: F) -> u32
    requires { F.IsAlwaysCallable passes }
    ensures { (p : ℕ → Bool) → Answers p (F.post passes) → result ≡ passing p s.now }
{
    let mut k: u32 = 0;
    for v in s {
        let one = u32::from(passes(*v));
        k = k.wrapping_add(one);
    }
    k
}

// How many numbers are at most limit, modulo 2^32.
pub fn count_at_most(s: &[u32], limit: u32) -> u32
    ensures { result ≡ passing (is_underflow limit) s.now }
{
    count_passing(s, |v| v <= limit)
}

// How many numbers are limit or more, modulo 2^32.
pub fn count_from(s: &[u32], limit: u32) -> u32
    ensures { result ≡ passing (leb limit) s.now }
{
    count_passing(s, |v| limit <= v)
}

// The same, and none where k is 0: a lower limit has that count.
pub fn count_above(s: &[u32], k: u32, limit: u32) -> u32
    ensures { result ≡ passing_from k limit s.now }
{
    if k == 0 { 0 } else { count_from(s, limit) }
}

// How many underflow entries the kind has for a block.
fn count_under(block: &[u32], u: Underflow, base: u32) -> u32
    requires { length block.now < 2 ^ 32 }
    ensures { result ≡ under_count u (length (only (is_underflow base) block.now)) }
{
    match u {
        Underflow::None => 0,
        Underflow::Subtracted(_) => count_at_most(block, base),
    }
}

// How many two-byte entries the width has for a block.
fn count_two(block: &[u32], w: Width, limit: u32) -> u32
    requires { length block.now < 2 ^ 32 }
    ensures { result ≡ two_count w (length (only (leb limit) block.now)) }
{
    match w {
        Width::One => count_from(block, limit),
        Width::Two | Width::Four => 0,
    }
}

// How many four-byte entries the width has for a block that has so many two-byte ones.
fn count_four(block: &[u32], w: Width, two: u32, base: u32) -> u32
    requires { (length block.now < 2 ^ 32) × (base ≤ 65535) × (two ≡ two_count w (length (only (leb (base + 255)) block.now))) }
    ensures { result ≡ four_count w (length (only (leb (base + 65535)) block.now)) }
{
    match w {
        Width::One => count_above(block, two, base + 65535),
        Width::Two => count_from(block, base + 65535),
        Width::Four => 0,
    }
}

// The counts of a block, as far as the form has entries for them.
#[tactic(auto, unfolding(crate::specs::Counts::counts_of, crate::specs::Counts::counts_for))]
fn count_block(block: &[u32], form: Form, base: u32) -> Counts
    requires { (length block.now < 2 ^ 32) × (base ≤ 65535) }
    ensures { result ≡ counts_for form (counts_of base block.now) }
{
    let under = count_under(block, form.underflow, base);
    let two = count_two(block, form.width, base + 255);
    let four = count_four(block, form.width, two, base);
    Counts { under, two, four }
}

// The counts of two parts together, modulo 2^32.
#[tactic(auto, unfolding(crate::specs::Counts::counts_more))]
pub fn add_counts(c: Counts, d: Counts) -> Counts
    ensures { result ≡ counts_more c d }
{
    Counts {
        under: c.under.wrapping_add(d.under),
        two: c.two.wrapping_add(d.two),
        four: c.four.wrapping_add(d.four),
    }
}

pub fn no_counts() -> Counts
    ensures { result ≡ no_counts }
{
    Counts {
        under: 0,
        two: 0,
        four: 0,
    }
}

// The counts of all pixels, in one pass: 128 pixels at a time, and what is left.
#[tactic(auto, unfolding(crate::specs::Counts::counted))]
pub fn count(pixels: &[u32], form: Form, base: u16) -> Counts
    ensures { result ≡ counted form base pixels.now }
{
    if 16777216 < pixels.len() {
        return no_counts();
    }
    let b = u32::from(base);
    let mut c = no_counts();
    let (blocks, rest) = pixels.as_chunks::<128>();
    for block in blocks {
        c = add_counts(c, count_block(block, form, b));
    }
    add_counts(c, count_block(rest, form, b))
}

// Some underflow entry is above 255: every pixel is looked at. No early exit, so that the loop is made of vector instructions.
fn any_above(pixels: &[u32], base: u32) -> bool
    ensures { result ≡ any_above255 (only (is_underflow base) pixels.now) }
{
    let mut found = false;
    for v in pixels {
        found |= (*v <= base) & (255 < *v);
    }
    found
}

// Some underflow entry is above 255. None is where the baseline fits one byte.
pub fn any_large(pixels: &[u32], base: u32) -> bool
    ensures { result ≡ any_above255 (only (is_underflow base) pixels.now) }
{
    if base <= 255 {
        return false;
    }
    any_above(pixels, base)
}
