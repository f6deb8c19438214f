// Why a frame may be purged or not, and why a pixel has its count: the ledger's line that decides.
#![tactic(auto)]

ghost use Rattle.std.specs.Prelude.{◌≡◌, ◌+◌, ◌<◌, ◌^◌};
ghost use Rattle.why.specs.Why.{numbered, day_reason, pixel_reason};

use calendar::Date;
use ledger::{Found, Line, Sought};
use refusal::Refusal;

// A line by its number in the listing, from 1.
#[derive(Clone, Copy)]
pub struct Numbered {
    pub number: u64,
    pub line: Line,
}

impl Numbered {
    fn of(found: Found) -> Numbered
        requires { found.index + 1 < 2 ^ 64 }
        ensures { result ≡ numbered found.index found.line }
    {
        Numbered {
            number: found.index as u64 + 1,
            line: found.line,
        }
    }
}

// For a day: yes or not yet by a keep line.
#[derive(Clone, Copy)]
pub enum DayAnswer {
    Allowed(Numbered),
    NotYet(Numbered),
}

// Why the frame may be purged on this day, or may not.
pub fn day_reason(ledger: &[u8], lines: u64, day: Date) -> Result<DayAnswer, Refusal>
    ensures { result ≡ day_reason ledger.now lines day }
{
    let summary = ledger::survey(ledger, lines).ok_or(Refusal::LedgerMalformed)?;
    if !calendar::is_date(day) {
        return Err(Refusal::NotADate);
    }
    let keep = summary.sought.ok_or(Refusal::NoKeepLine)?;
    let decides = Numbered::of(keep);
    if calendar::is_before(keep.line.date, day) {
        return Ok(DayAnswer::Allowed(decides));
    }
    Ok(DayAnswer::NotYet(decides))
}

// Which correction set this pixel, if one did.
pub fn pixel_reason(ledger: &[u8], lines: u64, pixel: u64) -> Result<Option<Numbered>, Refusal>
    ensures { result ≡ pixel_reason ledger.now lines pixel }
{
    let sought = Sought::Correction { pixel };
    let summary = ledger::survey_for(ledger, lines, sought).ok_or(Refusal::LedgerMalformed)?;
    let Some(correction) = summary.sought else {
        return Ok(None);
    };
    Ok(Some(Numbered::of(correction)))
}
