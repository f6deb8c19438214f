// Answers on a ledger as plain numbers.
#![tactic(auto)]

ghost use Rattle.std.specs.Prelude.{◌≡◌};
ghost use Rattle.ledger_report.specs.Report.{ledger_result, purge_result, day_result, pixel_result, list_result};

use refusal::Refusal;
use why::{DayAnswer, Numbered};

// refusal is 0 where the call is accepted.
#[repr(C)]
#[derive(Clone, Copy)]
pub struct LedgerResult {
    pub refusal: u32,
    pub lines: u64,
}

// line is 0 where no line is named.
#[repr(C)]
#[derive(Clone, Copy)]
pub struct WhyResult {
    pub refusal: u32,
    pub line: u64,
}

#[repr(C)]
#[derive(Clone, Copy)]
pub struct ListResult {
    pub short: u32,
    pub length: u64,
}

// The number of lines after a call, or the refusal and the number before it.
pub fn ledger_result(lines: u64, answer: Result<u64, Refusal>) -> LedgerResult
    ensures { result ≡ ledger_result lines answer }
{
    match answer {
        Ok(next) => LedgerResult {
            refusal: 0,
            lines: next,
        },
        Err(r) => LedgerResult {
            refusal: refusal::number_of(r),
            lines,
        },
    }
}

// 0 where the frame may be purged, or the refusal.
pub fn purge_result(answer: Result<(), Refusal>) -> u32
    ensures { result ≡ purge_result answer }
{
    match answer {
        Ok(()) => 0,
        Err(r) => refusal::number_of(r),
    }
}

// The number of the keep line that decides, with 0 where the frame may be purged and 27 where it may not yet.
pub fn day_result(answer: Result<DayAnswer, Refusal>) -> WhyResult
    ensures { result ≡ day_result answer }
{
    match answer {
        Ok(DayAnswer::Allowed(decides)) => WhyResult {
            refusal: 0,
            line: decides.number,
        },
        Ok(DayAnswer::NotYet(decides)) => WhyResult {
            refusal: refusal::number_of(Refusal::NotYet),
            line: decides.number,
        },
        Err(r) => WhyResult {
            refusal: refusal::number_of(r),
            line: 0,
        },
    }
}

// The number of the correction that set a pixel.
pub fn pixel_result(answer: Result<Option<Numbered>, Refusal>) -> WhyResult
    ensures { result ≡ pixel_result answer }
{
    match answer {
        Ok(Some(decides)) => WhyResult {
            refusal: 0,
            line: decides.number,
        },
        Ok(None) => WhyResult {
            refusal: 0,
            line: 0,
        },
        Err(r) => WhyResult {
            refusal: refusal::number_of(r),
            line: 0,
        },
    }
}

// The length of a listing, or that the buffer is too short.
pub fn list_result(answer: Option<usize>) -> ListResult
    ensures { result ≡ list_result answer }
{
    match answer {
        Some(used) => ListResult {
            short: 0,
            length: used as u64,
        },
        None => ListResult {
            short: 1,
            length: 0,
        },
    }
}
