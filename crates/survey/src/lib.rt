// One pass over the pixels that counts what all nine forms need.
#![tactic(auto)]

ghost use Rattle.std.specs.Prelude.{◌≡◌, ◌^◌, ◌<◌, ◌≤◌, length};
ghost use Rattle.layout.specs.Form.{form_of};
ghost use Rattle.layout.specs.declared.Width.TheVariants.{One};
ghost use Rattle.layout.specs.declared.Underflow.TheVariants.{None};
ghost use Rattle.pixel_counts.specs.Counts.{counts_of, counts_for};
ghost use Rattle.survey.specs.Survey.{no_survey, surveyed, surveyed_none, survey_more, pair_of, limits_of, large_after, survey_after};

use header_text::Counts;

// The entries without the baseline and with it, and whether an underflow entry is above 255.
#[derive(Clone, Copy)]
pub struct Survey {
    pub none: Counts,
    pub subtracted: Counts,
    pub large: bool,
}

// How many numbers are above each of two limits.
#[derive(Clone, Copy)]
struct Pair {
    first: u32,
    second: u32,
}

// Two counts in one loop, of what is above and not of what is from a limit on: fewer instructions for a pixel.
fn count_pair(block: &[u32], a: u32, b: u32) -> Pair
    requires { length block.now < 2 ^ 32 }
    ensures { result ≡ pair_of a b block.now }
{
    let mut first: u32 = 0;
    let mut second: u32 = 0;
    for v in block {
        first += u32::from(a < *v);
        second += u32::from(b < *v);
    }
    Pair { first, second }
}

// How many numbers are above 254, 65534, a baseline, and 254 (lower) and 65534 (lowest) more than that.
#[derive(Clone, Copy)]
struct Limits {
    two: u32,
    four: u32,
    base: u32,
    lower: u32,
    lowest: u32,
}

// All five counts in one loop. Two counts and five stay two functions: over an array of limits each count would be an element, and
// the loop over the pixels would have one over the limits within.
fn count_limits(block: &[u32], base: u32) -> Limits
    requires { (length block.now < 2 ^ 32) × (base ≤ 65535) }
    ensures { result ≡ limits_of base block.now }
{
    let high = base + 254;
    let higher = base + 65534;
    let mut two: u32 = 0;
    let mut four: u32 = 0;
    let mut over: u32 = 0;
    let mut low_two: u32 = 0;
    let mut low_four: u32 = 0;
    for v in block {
        two += u32::from(254 < *v);
        four += u32::from(65534 < *v);
        over += u32::from(base < *v);
        low_two += u32::from(high < *v);
        low_four += u32::from(higher < *v);
    }
    Limits {
        two,
        four,
        base: over,
        lower: low_two,
        lowest: low_four,
    }
}

// Whether an underflow entry is above 255, here or before: looked for until one is found.
fn any_large(found: bool, block: &[u32], base: u32) -> bool
    ensures { result ≡ large_after found base block.now }
{
    found || pixel_counts::any_large(block, base)
}

// What is counted of a block. Where no pixel is 255 or more, only underflows are left.
fn survey_block(block: &[u32], base: u32, found: bool) -> Survey
    requires { (length block.now < 2 ^ 32) × (base ≤ 65535) }
    ensures { result ≡ survey_after found base block.now }
{
    let low = count_pair(block, 254, base);
    let under = block.len() as u32 - low.second;
    if low.first == 0 {
        return Survey {
            none: pixel_counts::no_counts(),
            subtracted: Counts {
                under,
                two: 0,
                four: 0,
            },
            large: found,
        };
    }
    let high = count_pair(block, 65534, base + 254);
    let low_four = pixel_counts::count_above(block, high.first, base + 65535);
    let large = any_large(found, block, base);
    Survey {
        none: Counts {
            under: 0,
            two: low.first,
            four: high.first,
        },
        subtracted: Counts {
            under,
            two: high.second,
            four: low_four,
        },
        large,
    }
}

// The same, for a block with pixels above every limit.
fn survey_dense(block: &[u32], base: u32, found: bool) -> Survey
    requires { (length block.now < 2 ^ 32) × (base ≤ 65535) }
    ensures { result ≡ survey_after found base block.now }
{
    let k = count_limits(block, base);
    let under = block.len() as u32 - k.base;
    let large = any_large(found, block, base);
    Survey {
        none: Counts {
            under: 0,
            two: k.two,
            four: k.four,
        },
        subtracted: Counts {
            under,
            two: k.lower,
            four: k.lowest,
        },
        large,
    }
}

fn survey_part(block: &[u32], base: u32, found: bool, dense: bool) -> Survey
    requires { (length block.now < 2 ^ 32) × (base ≤ 65535) }
    ensures { result ≡ survey_after found base block.now }
{
    if dense {
        survey_dense(block, base, found)
    } else {
        survey_block(block, base, found)
    }
}

// One pixel in 16 of a block of 1024 is from 255 on, and one from 65535 on. It decides only how the next block is counted.
fn is_dense(c: Counts) -> bool {
    64 <= c.two && 0 < c.four
}

// What is counted of two parts together; the second knows of the first whether a large entry was found.
#[tactic(auto, unfolding(crate::specs::Survey::survey_more))]
fn add_surveys(a: Survey, b: Survey) -> Survey
    ensures { result ≡ survey_more a b }
{
    let none = pixel_counts::add_counts(a.none, b.none);
    let subtracted = pixel_counts::add_counts(a.subtracted, b.subtracted);
    Survey {
        none,
        subtracted,
        large: b.large,
    }
}

fn no_survey() -> Survey
    ensures { result ≡ no_survey }
{
    let none = pixel_counts::no_counts();
    Survey {
        none,
        subtracted: none,
        large: false,
    }
}

// What is counted of all pixels: 1024 at a time, and what is left.
#[tactic(auto, unfolding(crate::specs::Survey::surveyed))]
pub fn survey_pixels(pixels: &[u32], base: u16) -> Survey
    ensures { result ≡ surveyed base pixels.now }
{
    if 16777216 < pixels.len() {
        return no_survey();
    }
    let b = u32::from(base);
    let mut s = no_survey();
    let mut dense = false;
    let (blocks, rest) = pixels.as_chunks::<1024>();
    for block in blocks {
        let d = survey_part(block, b, s.large, dense);
        dense = is_dense(d.none);
        s = add_surveys(s, d);
    }
    let d = survey_block(rest, b, s.large);
    add_surveys(s, d)
}

// The entries of a block without a baseline: one loop for both counts where the last block had any.
fn count_none(block: &[u32], dense: bool) -> Counts
    requires { length block.now < 2 ^ 32 }
    ensures { result ≡ counts_for (form_of One None) (counts_of 0 block.now) }
{
    if !dense && pixel_counts::count_from(block, 255) == 0 {
        return pixel_counts::no_counts();
    }
    let k = count_pair(block, 254, 65534);
    Counts {
        under: 0,
        two: k.first,
        four: k.second,
    }
}

// What is counted where there is no baseline: the entries without it.
#[tactic(auto, unfolding(crate::specs::Survey::surveyed_none, pixel_counts::specs::Counts::counted))]
pub fn survey_none(pixels: &[u32]) -> Survey
    ensures { result ≡ surveyed_none pixels.now }
{
    if 16777216 < pixels.len() {
        return no_survey();
    }
    let mut c = pixel_counts::no_counts();
    let mut dense = false;
    let (blocks, rest) = pixels.as_chunks::<1024>();
    for block in blocks {
        let d = count_none(block, dense);
        dense = 0 < d.two;
        c = pixel_counts::add_counts(c, d);
    }
    let d = count_none(rest, dense);
    Survey {
        none: pixel_counts::add_counts(c, d),
        subtracted: pixel_counts::no_counts(),
        large: false,
    }
}
