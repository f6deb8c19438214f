// The held frame and its ledger: correction, withdrawal and amending.
#![tactic(auto)]

ghost use Rattle.std.specs.Prelude.{◌+◌, ◌≡◌, [], ◌∷◌, Some};
ghost use Rattle.ledger.specs.Ledger.{ledger_full};
ghost use Rattle.canonical.specs.Located.{located};
ghost use Rattle.readback.specs.Held.{is_held};
ghost use Rattle.replacement.specs.Replace.{replace_answer, replace_bytes};
ghost use Rattle.archive.specs.Calls.{correction_line, withdrawal_line, correct_outcome, withdraw_outcome, amend_outcome};
ghost use Rattle.archive.specs.Changes.{held_refusal, last_line, within32, full_refusal, changing, amending, keep_withdrawn};

use calendar::Date;
use canonical::Unlocated;
use ledger::{Kind, Line};
use refusal::Refusal;

// No date: of a line that is no keep line.
const NO_DATE: Date = Date {
    year: 0,
    month: 0,
    day: 0,
};

// The line that takes back the last standing one.
const WITHDRAWAL: Line = Line {
    kind: Kind::Withdrawal,
    date: NO_DATE,
    pixel: 0,
    old: 0,
    new: 0,
};

// The held bytes are a frame of the writer's.
#[tactic(auto, unfolding(canonical::specs::Located::located))]
fn is_canonical(held: &[u8]) -> bool
    ensures { result ≡ is_held held.now }
{
    !matches!(canonical::locate(held, 0), Err(Unlocated::NotCanonical))
}

// 19, or else the refusal that is due.
#[tactic(auto, unfolding(crate::specs::Changes::held_refusal))]
fn held_refusal(held: &[u8], due: Refusal) -> Refusal
    ensures { result ≡ held_refusal held.now due }
{
    if is_canonical(held) {
        due
    } else {
        Refusal::HeldNotCanonical
    }
}

// The refusal due where the ledger is full.
fn full_refusal(held: &[u8], pixel: u32, expected: Option<u32>) -> Refusal
    ensures { result ≡ full_refusal expected (located held.now pixel) }
{
    match canonical::locate(held, pixel) {
        Err(u) => Refusal::from(u),
        Ok(place) => {
            if replacement::is_met(expected, place.old) {
                Refusal::LedgerFull
            } else {
                Refusal::PixelDiffers
            }
        }
    }
}

// The ledger's bytes hold no further line.
fn is_full(ledger: &[u8], lines: u64) -> bool
    ensures { result ≡ ledger_full ledger.now lines }
{
    (ledger.len() / 16) as u64 <= lines
}

fn correction_line(pixel: u32, old: u32, new: u32) -> Line
    ensures { result ≡ correction_line pixel old new }
{
    Line {
        kind: Kind::Correction,
        date: NO_DATE,
        pixel,
        old,
        new,
    }
}

// An index of 32 bits that is as far outside every frame, where the index has more.
#[tactic(auto, unfolding(crate::specs::Changes::within32))]
fn within_u32(pixel: u64) -> u32
    ensures { result ≡ within32 pixel }
{
    u32::try_from(pixel).unwrap_or(u32::MAX)
}

// Corrects the count of one pixel, and appends a line that says so. Here and below the replaced pixel's answer is taken apart by let .. else
// (document 01, list of forms by place).
pub fn correct(
    held: &mut [u8],
    ledger: &mut [u8],
    lines: u64,
    pixel: u64,
    count: u32,
) -> Result<u64, Refusal>
    ensures value { result ≡ (correct_outcome held.old ledger.old lines pixel count).answer }
    ensures held_after { held.new ≡ (correct_outcome held.old ledger.old lines pixel count).held }
    ensures ledger_after { ledger.new ≡ (correct_outcome held.old ledger.old lines pixel count).ledger }
{
    let p = within_u32(pixel);
    let Some(_) = ledger::survey(ledger, lines) else {
        return Err(held_refusal(held, Refusal::LedgerMalformed));
    };
    if is_full(ledger, lines) {
        return Err(full_refusal(held, p, None));
    }
    let replaced = replacement::replace(held, p, None, count);
    let Ok(old) = replaced else {
        return Err(refusal::refusal_of(replaced));
    };
    ledger::append(ledger, lines, correction_line(p, old, count))
}

// The last standing line: 20 and 22, each after 19. Answers are taken apart by let .. else (document 01, list of forms by place).
fn last_line(held: &[u8], ledger: &[u8], lines: u64) -> Result<Line, Refusal>
    ensures { result ≡ last_line held.now ledger.now lines }
{
    let Some(summary) = ledger::survey(ledger, lines) else {
        return Err(held_refusal(held, Refusal::LedgerMalformed));
    };
    let Some(found) = summary.last else {
        return Err(held_refusal(held, Refusal::NothingStands));
    };
    Ok(found.line)
}

// Takes the last standing line back, which is a correction.
fn withdraw_correction(
    held: &mut [u8],
    ledger: &mut [u8],
    lines: u64,
    line: Line,
) -> Result<u64, Refusal>
    ensures value { result ≡ (changing held.old ledger.old lines (ledger_full ledger.old lines) (Some line.new) line.pixel line.old (λ old. withdrawal_line ∷ [])).answer }
    ensures held_after { held.new ≡ (changing held.old ledger.old lines (ledger_full ledger.old lines) (Some line.new) line.pixel line.old (λ old. withdrawal_line ∷ [])).held }
    ensures ledger_after { ledger.new ≡ (changing held.old ledger.old lines (ledger_full ledger.old lines) (Some line.new) line.pixel line.old (λ old. withdrawal_line ∷ [])).ledger }
{
    if is_full(ledger, lines) {
        return Err(full_refusal(held, line.pixel, Some(line.new)));
    }
    let replaced = replacement::replace(held, line.pixel, Some(line.new), line.old);
    let Ok(_) = replaced else {
        return Err(refusal::refusal_of(replaced));
    };
    ledger::append(ledger, lines, WITHDRAWAL)
}

// Takes the last standing line back, which is a keep line: the held frame stays.
#[tactic(auto, unfolding(crate::specs::Changes::keep_withdrawn))]
fn withdraw_keep(held: &[u8], ledger: &mut [u8], lines: u64) -> Result<u64, Refusal>
    ensures value { result ≡ (keep_withdrawn held.now ledger.old lines).answer }
    ensures ledger_after { ledger.new ≡ (keep_withdrawn held.now ledger.old lines).ledger }
{
    if !is_canonical(held) {
        return Err(Refusal::HeldNotCanonical);
    }
    ledger::append(ledger, lines, WITHDRAWAL)
}

// Takes the last standing line back.
pub fn withdraw(held: &mut [u8], ledger: &mut [u8], lines: u64) -> Result<u64, Refusal>
    ensures value { result ≡ (withdraw_outcome held.old ledger.old lines).answer }
    ensures held_after { held.new ≡ (withdraw_outcome held.old ledger.old lines).held }
    ensures ledger_after { ledger.new ≡ (withdraw_outcome held.old ledger.old lines).ledger }
{
    let line = last_line(held, ledger, lines)?;
    match line.kind {
        Kind::Correction => withdraw_correction(held, ledger, lines, line),
        Kind::Keep => withdraw_keep(held, ledger, lines),
        Kind::Withdrawal => Err(held_refusal(held, Refusal::NothingStands)),
    }
}

// The ledger's bytes hold fewer than two further lines.
fn lacks_two(ledger: &[u8], lines: u64) -> bool
    ensures { result ≡ ledger_full ledger.now (lines + 1) }
{
    is_full(ledger, lines) || is_full(ledger, lines + 1)
}

// Takes the last standing line back, which is a correction, and corrects its pixel anew.
fn amend_correction(
    held: &mut [u8],
    ledger: &mut [u8],
    lines: u64,
    line: Line,
    count: u32,
) -> Result<u64, Refusal>
    ensures value { result ≡ (amending held.old ledger.old lines count line).answer }
    ensures held_after { held.new ≡ (amending held.old ledger.old lines count line).held }
    ensures ledger_after { ledger.new ≡ (amending held.old ledger.old lines count line).ledger }
{
    if lacks_two(ledger, lines) {
        return Err(full_refusal(held, line.pixel, Some(line.new)));
    }
    let replaced = replacement::replace(held, line.pixel, Some(line.new), count);
    let Ok(_) = replaced else {
        return Err(refusal::refusal_of(replaced));
    };
    let _ = ledger::append(ledger, lines, WITHDRAWAL);
    ledger::append(
        ledger,
        lines + 1,
        correction_line(line.pixel, line.old, count),
    )
}

// Puts another count in place of the last standing correction's: that line taken back and a line for the new count, or nothing.
pub fn amend(held: &mut [u8], ledger: &mut [u8], lines: u64, count: u32) -> Result<u64, Refusal>
    ensures value { result ≡ (amend_outcome held.old ledger.old lines count).answer }
    ensures held_after { held.new ≡ (amend_outcome held.old ledger.old lines count).held }
    ensures ledger_after { ledger.new ≡ (amend_outcome held.old ledger.old lines count).ledger }
{
    let line = last_line(held, ledger, lines)?;
    match line.kind {
        Kind::Correction => amend_correction(held, ledger, lines, line, count),
        Kind::Keep => Err(held_refusal(held, Refusal::LastIsKeep)),
        Kind::Withdrawal => Err(held_refusal(held, Refusal::NothingStands)),
    }
}
