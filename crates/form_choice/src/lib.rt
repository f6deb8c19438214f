// The smallest of the nine forms, by what was counted.
#![tactic(auto)]

ghost use Rattle.std.specs.Prelude.{◌≡◌, ◌+◌, Ok};
ghost use Rattle.layout.specs.Form.{form_of};
ghost use Rattle.layout.specs.Layout.{table_bytes};
ghost use Rattle.layout.specs.declared.Underflow.TheVariants.{None, Subtracted};
ghost use Rattle.layout.specs.declared.EntryWidth.TheVariants.{One, Two};
ghost use Rattle.pixel_counts.specs.Counts.{two_count, four_count};
ghost use Rattle.form_choice.specs.Choosing.{shorter, choice_by, forms};
ghost use Rattle.form_choice.specs.Lengths.{measured, candidate_of};

use header_text::Counts;
use layout::{EntryWidth, Form, Underflow, Width};
use refusal::Refusal;
use survey::Survey;

// A form with the length of its frame, or why there is none.
#[derive(Clone, Copy)]
pub struct Chosen {
    pub form: Form,
    pub length: u64,
}

// The bytes of the two-byte and the four-byte table, as far as the width has them.
fn overflow_bytes(w: Width, c: Counts) -> usize
    ensures { result ≡ table_bytes 2 (two_count w c.two) + table_bytes 4 (four_count w c.four) }
{
    match w {
        Width::One => layout::table_bytes(Width::Two, c.two)
            + layout::table_bytes(Width::Four, c.four),
        Width::Two => layout::table_bytes(Width::Four, c.four),
        Width::Four => 0,
    }
}

// The shorter of two, the first where they are equal.
fn shorter_of(a: Result<Chosen, Refusal>, b: Result<Chosen, Refusal>) -> Result<Chosen, Refusal>
    ensures { result ≡ shorter a b }
{
    let Ok(second) = b else {
        return a;
    };
    let Ok(first) = a else {
        return b;
    };
    if first.length <= second.length { a } else { b }
}

// What the forms are measured by: the bytes of the header, the pixels, whether the header gives a baseline, and what was counted.
#[derive(Clone, Copy)]
struct Basis {
    header: u32,
    n: u32,
    given: bool,
    counted: Survey,
}

impl Basis {
    // A form with the length of its frame with so many entries.
    #[tactic(auto, unfolding(crate::specs::Lengths::length_by, pixel_counts::specs::Counts::counts_for))]
    fn measure(&self, form: Form, c: Counts) -> Chosen
        ensures { Ok result ≡ measured self.now.header self.now.n form c }
    {
        let image = self.n as usize * layout::width_bytes(form.width);
        let under = layout::underflow_table_bytes(form.underflow, c.under);
        let length = self.header as usize + image + under + overflow_bytes(form.width, c);
        Chosen {
            form,
            length: length as u64,
        }
    }

    // A form with the length of its frame, or the writer's refusal of it.
    #[tactic(auto, unfolding(crate::specs::Lengths::candidate_of))]
    fn candidate(&self, form: Form) -> Result<Chosen, Refusal>
        ensures { result ≡ candidate_of self.now.header self.now.n self.now.given self.now.counted form }
    {
        match form.underflow {
            Underflow::None => Ok(self.measure(form, self.counted.none)),
            Underflow::Subtracted(_) if !self.given => Err(Refusal::FormUnavailable),
            Underflow::Subtracted(EntryWidth::One) if self.counted.large => {
                Err(Refusal::UnderflowTooLarge)
            }
            Underflow::Subtracted(_) => Ok(self.measure(form, self.counted.subtracted)),
        }
    }

    // A form before what is chosen behind it.
    fn before(
        &self,
        width: Width,
        underflow: Underflow,
        rest: Result<Chosen, Refusal>,
    ) -> Result<Chosen, Refusal>
        ensures { result ≡ shorter (candidate_of self.now.header self.now.n self.now.given self.now.counted (form_of width underflow)) rest }
    {
        shorter_of(self.candidate(Form { width, underflow }), rest)
    }

    // The three forms of a width before what is chosen behind them. Three calls, the last form first: a loop over the kinds would need
    // an array of them, and be no shorter.
    fn of_width(&self, width: Width, rest: Result<Chosen, Refusal>) -> Result<Chosen, Refusal>
        ensures { result ≡ shorter (candidate_of self.now.header self.now.n self.now.given self.now.counted (form_of width None)) (shorter (candidate_of self.now.header self.now.n self.now.given self.now.counted (form_of width (Subtracted One))) (shorter (candidate_of self.now.header self.now.n self.now.given self.now.counted (form_of width (Subtracted Two))) rest)) }
    {
        let from_two = self.before(width, Underflow::Subtracted(EntryWidth::Two), rest);
        let from_one = self.before(width, Underflow::Subtracted(EntryWidth::One), from_two);
        self.before(width, Underflow::None, from_one)
    }
}

// The first of the shortest of the nine forms, for n pixels behind a header of so many bytes that gives a baseline or none.
#[tactic(auto, unfolding(crate::specs::Choosing::choice_by, crate::specs::Choosing::forms))]
pub fn choose(header: u32, n: u32, given: bool, s: Survey) -> Result<Chosen, Refusal>
    ensures { result ≡ choice_by (candidate_of header n given s) forms }
{
    let basis = Basis {
        header,
        n,
        given,
        counted: s,
    };
    let four = basis.of_width(Width::Four, Err(Refusal::FormUnavailable));
    let two = basis.of_width(Width::Two, four);
    basis.of_width(Width::One, two)
}
