// Opening: a frame read, and held in the form asked for or in the smallest.
#![tactic(auto)]

ghost use Rattle.std.specs.Prelude.{◌≡◌, length, Some};
ghost use Rattle.writer.specs.Writer.{write_answer, write_bytes};
ghost use Rattle.opening.specs.Open.{opened, open_answer, open_pixels, open_held, chosen_form, smallest_opened};

use layout::{Form, Frame};
use refusal::Refusal;

// The frame read, and the length of the frame held or why none is held.
#[derive(Clone, Copy)]
pub struct Opened {
    pub frame: Frame,
    pub held: Result<u64, Refusal>,
}

// An opening in the smallest form. Where nothing is held, the form stands for nothing.
#[derive(Clone, Copy)]
pub struct FormOpened {
    pub form: Form,
    pub answer: Result<Opened, Refusal>,
}

// Writes what was read into the held buffer. Here and below the writer's answer and the reader's are taken apart by let .. else
// (document 01, list of forms by place).
fn hold(frame: &[u8], size: Frame, pixels: &[u32], asked: Option<Form>, held: &mut [u8]) -> Opened
    ensures value { result ≡ opened size (write_answer frame.now asked pixels.now (length held.old)) }
    ensures held_after { held.new ≡ write_bytes frame.now asked pixels.now held.old }
{
    let written = writer::write(frame, pixels, asked, held);
    let Ok(length) = written else {
        return Opened {
            frame: size,
            held: Err(refusal::refusal_of(written)),
        };
    };
    Opened {
        frame: size,
        held: Ok(length),
    }
}

// Reads a frame into the pixel array and writes it into the held buffer, in the form asked for.
#[tactic(auto, unfolding(crate::specs::Open::open_answer, crate::specs::Open::open_held))]
pub fn open(
    frame: &[u8],
    pixels: &mut [u32],
    asked: Option<Form>,
    held: &mut [u8],
) -> Result<Opened, Refusal>
    ensures value { result ≡ open_answer frame.now pixels.old asked (length held.old) }
    ensures pixels_after { pixels.new ≡ open_pixels frame.now pixels.old }
    ensures held_after { held.new ≡ open_held frame.now pixels.old asked held.old }
{
    let read = reader::read(frame, pixels);
    let Ok(size) = read else {
        return Err(refusal::refusal_of(read));
    };
    Ok(hold(frame, size, pixels, asked, held))
}

// The same in the smallest form of the frame read.
#[tactic(auto, unfolding(crate::specs::Open::open_answer, crate::specs::Open::open_held, crate::specs::Open::chosen_form, crate::specs::Open::smallest_opened))]
pub fn open_smallest(frame: &[u8], pixels: &mut [u32], held: &mut [u8]) -> FormOpened
    ensures value { result ≡ smallest_opened frame.now pixels.old (length held.old) }
    ensures pixels_after { pixels.new ≡ open_pixels frame.now pixels.old }
    ensures held_after { held.new ≡ open_held frame.now pixels.old (Some (chosen_form frame.now pixels.old)) held.old }
{
    let read = reader::read(frame, pixels);
    let Ok(size) = read else {
        let refusal = refusal::refusal_of(read);
        return FormOpened {
            form: smallest::form_in(Err(refusal)),
            answer: Err(refusal),
        };
    };
    let form = smallest::form_in(smallest::choose(frame, pixels));
    let asked = Some(form);
    FormOpened {
        form,
        answer: Ok(hold(frame, size, pixels, asked, held)),
    }
}
