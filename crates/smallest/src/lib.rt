// Which form is smallest: the first of the shortest among those that the writer accepts.
#![tactic(auto)]

ghost use Rattle.std.specs.Prelude.{◌≡◌, length, Ok};
ghost use Rattle.header.specs.Header.{header_of};
ghost use Rattle.writer.specs.Blocks.{given_baseline, tables_baseline, Sized};
ghost use Rattle.smallest.specs.Smallest.{smallest_form, form_in};
ghost use Rattle.smallest.specs.Steps.{chosen_with, chosen_as, chosen_from};

use form_choice::Chosen;
use layout::{EntryWidth, Form, Header, Tables, Underflow, Underflows, Width};
use refusal::Refusal;

// The smallest form for a header's own bytes and its pixels. Both kinds with a baseline have the same one.
fn choose_with(header: &[u8], h: Underflows, pixels: &[u32]) -> Result<Chosen, Refusal>
    requires { Sized header.now pixels.now (given_baseline h) }
    ensures { result ≡ chosen_with header.now h pixels.now }
{
    let start = header.len() as u32;
    let n = pixels.len() as u32;
    match writer::base_for(header, h, Underflow::Subtracted(EntryWidth::One)) {
        Some(b) => { form_choice::choose(start, n, true, survey::survey_pixels(pixels, b as u16)) }
        None => { form_choice::choose(start, n, false, survey::survey_none(pixels)) }
    }
}

// 16 for FORMAT 86.
fn choose_as(header: &[u8], tables: Tables, pixels: &[u32]) -> Result<Chosen, Refusal>
    requires { Sized header.now pixels.now (tables_baseline tables) }
    ensures { result ≡ chosen_as header.now tables pixels.now }
{
    let Tables::Format100(t) = tables else {
        return Err(Refusal::FormUnavailable);
    };
    let h = t.underflows;
    choose_with(header, h, pixels)
}

// 10, and then the choice for the header's N pixels.
fn choose_from(given: &[u8], h: Header, pixels: &[u32]) -> Result<Chosen, Refusal>
    requires { header_of given.now ≡ Ok h }
    ensures { result ≡ chosen_from given.now pixels.now h }
{
    let image = h.image;
    let tables = h.tables;
    let n = layout::pixel_count(image);
    if pixels.len() < n {
        return Err(Refusal::PixelArrayShort);
    }
    let start = image.start as usize;
    choose_as(&given[..start], tables, &pixels[..n])
}

// The form in which the writer's frame of this header and these pixels has the fewest bytes, with that length.
pub fn choose(header: &[u8], pixels: &[u32]) -> Result<Chosen, Refusal>
    ensures { result ≡ smallest_form header.now pixels.now }
{
    let h = header::read_header(header)?;
    choose_from(header, h, pixels)
}

// The form chosen, or the first of the nine where none is accepted: writing in it answers the refusal that is due.
pub fn form_in(c: Result<Chosen, Refusal>) -> Form
    ensures { result ≡ form_in c }
{
    match c {
        Ok(chosen) => chosen.form,
        Err(_) => Form {
            width: Width::One,
            underflow: Underflow::None,
        },
    }
}
