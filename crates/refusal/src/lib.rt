// Why a call is refused.
#![tactic(auto)]

ghost use Rattle.std.specs.Prelude.{◌≡◌};
ghost use Rattle.refusal.specs.Codes.{refusal_number, refusal_place, code_of, refusal_of};

// One case for each number of document 01's table and of document 02's requests, in their order; specs/Codes.antt gives the numbers.
#[derive(Clone, Copy)]
pub enum Refusal {
    HeaderTruncated,
    WrongName,
    BadField { line: u32 },
    UnknownFormat,
    UnknownVersion,
    BadHeaderBlocks,
    BadLine,
    OutOfRange,
    NotLinear,
    PixelArrayShort,
    DataTruncated,
    PaddingNotZero,
    BadEntry { entry: u32 },
    CountMismatch,
    SumTooLarge,
    FormUnavailable,
    UnderflowTooLarge,
    OutputShort,
    HeldNotCanonical,
    LedgerMalformed,
    LedgerFull,
    NothingStands,
    PixelDiffers,
    NoSuchPixel,
    NotADate,
    NoKeepLine,
    NotYet,
    BadPlateSize,
    PlateMismatch,
    UnderflowBufferShort,
    LastIsKeep,
    BadHeaderStart,
    BadSyntax,
    BadContent,
    UnsupportedData,
    TenthsArrayShort,
    NoSuchEntry,
    HeaderBufferShort,
}

// What a caller outside sees of a refusal: its number, and the header line or the entry's place that goes with it.
#[derive(Clone, Copy)]
pub struct Code {
    pub number: u32,
    pub place: u32,
}

// Written out: an enum whose cases hold values has no numbers of its own in this language.
pub fn number_of(r: Refusal) -> u32
    ensures { result ≡ refusal_number r }
{
    match r {
        Refusal::HeaderTruncated => 1,
        Refusal::WrongName => 2,
        Refusal::BadField { line: _ } => 3,
        Refusal::UnknownFormat => 4,
        Refusal::UnknownVersion => 5,
        Refusal::BadHeaderBlocks => 6,
        Refusal::BadLine => 7,
        Refusal::OutOfRange => 8,
        Refusal::NotLinear => 9,
        Refusal::PixelArrayShort => 10,
        Refusal::DataTruncated => 11,
        Refusal::PaddingNotZero => 12,
        Refusal::BadEntry { entry: _ } => 13,
        Refusal::CountMismatch => 14,
        Refusal::SumTooLarge => 15,
        Refusal::FormUnavailable => 16,
        Refusal::UnderflowTooLarge => 17,
        Refusal::OutputShort => 18,
        Refusal::HeldNotCanonical => 19,
        Refusal::LedgerMalformed => 20,
        Refusal::LedgerFull => 21,
        Refusal::NothingStands => 22,
        Refusal::PixelDiffers => 23,
        Refusal::NoSuchPixel => 24,
        Refusal::NotADate => 25,
        Refusal::NoKeepLine => 26,
        Refusal::NotYet => 27,
        Refusal::BadPlateSize => 28,
        Refusal::PlateMismatch => 29,
        Refusal::UnderflowBufferShort => 30,
        Refusal::LastIsKeep => 31,
        Refusal::BadHeaderStart => 32,
        Refusal::BadSyntax => 33,
        Refusal::BadContent => 34,
        Refusal::UnsupportedData => 35,
        Refusal::TenthsArrayShort => 36,
        Refusal::NoSuchEntry => 37,
        Refusal::HeaderBufferShort => 38,
    }
}

pub fn place_of(r: Refusal) -> u32
    ensures { result ≡ refusal_place r }
{
    match r {
        Refusal::BadField { line } => line,
        Refusal::BadEntry { entry } => entry,
        _ => 0,
    }
}

impl From<Refusal> for Code {
    ghost from_gives = { λ r code. code ≡ code_of r };

    fn from(r: Refusal) -> Code {
        Code {
            number: number_of(r),
            place: place_of(r),
        }
    }
}

// The refusal of an answer that is known to be one, where `let .. else` has taken it apart; for another answer it stands for nothing.
pub fn refusal_of<T: Drop>(answer: Result<T, Refusal>) -> Refusal
    ensures { result ≡ refusal_of answer }
{
    match answer {
        Ok(_) => Refusal::OutOfRange,
        Err(r) => r,
    }
}
