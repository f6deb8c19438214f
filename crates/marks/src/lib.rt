// Entries for the marked pixels of an image.
#![tactic(auto)]

ghost use Rattle.std.specs.Prelude.{◌≡◌, if◌then◌else◌};
ghost use Rattle.marks.specs.Steps.{takes, put};

use refusal::Refusal;

// An entry of a table: the intensity of a pixel, by its number from 0.
#[derive(Clone, Copy)]
pub struct Entry {
    pub intensity: u32,
    pub pixel: u32,
}

// Puts an entry's intensity into its pixel, if that holds the number by which it waits. By index: once the borrow of `get_mut` is
// over, a proof knows the array's length alone.
pub fn place_entry(e: Option<Entry>, hold: u32, pixels: &mut [u32]) -> bool
    ensures value { result ≡ takes hold pixels.old e }
    ensures pixels_after { pixels.new ≡ if◌then◌else◌ (takes hold pixels.old e) (put pixels.old e) pixels.old }
{
    let Some(Entry { intensity, pixel }) = e else {
        return false;
    };
    let p = pixel as usize;
    if pixels.len() <= p {
        return false;
    }
    if pixels[p] != hold {
        return false;
    }
    pixels[p] = intensity;
    true
}
