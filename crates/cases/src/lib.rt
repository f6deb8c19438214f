// What the programs that run cases share.
#![tactic(auto)]

ghost use Rattle.std.specs.Prelude.{◌≡◌};
ghost use Rattle.cases.specs.Numbers.{answered};

use refusal::Refusal;

// What a call answered as a number: that of its refusal, or 0.
pub fn number_of<T: Drop>(answer: Result<T, Refusal>) -> u32
    ensures { result ≡ answered answer }
{
    match answer {
        Ok(_) => 0,
        Err(r) => refusal::number_of(r),
    }
}
