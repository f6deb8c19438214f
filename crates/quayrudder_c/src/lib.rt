// The C interface: each function of `quayrudder` as an export for C, with its clauses.
#![tactic(auto)]

ghost use Rattle.std.specs.Prelude.{◌≡◌, length, Some};
ghost use Rattle.header.specs.Header.{header_of};
ghost use Rattle.header_report.specs.Report.{header_report};
ghost use Rattle.reader.specs.Reader.{read_answer, read_pixels};
ghost use Rattle.ledger.specs.Ledger.{keep_answer, keep_bytes, purge_answer};
ghost use Rattle.listing.specs.Listing.{list_answer, list_bytes};
ghost use Rattle.compaction.specs.Compact.{compact_answer, compact_bytes};
ghost use Rattle.why.specs.Why.{day_reason, pixel_reason};
ghost use Rattle.writer.specs.Writer.{write_answer, write_bytes};
ghost use Rattle.mar_image.specs.MarImage.{mar_answer, mar_pixels};
ghost use Rattle.mar_entry.specs.Entry.{entry_of};
ghost use Rattle.dtrek_header.specs.DtrekHeader.{dtrek_header};
ghost use Rattle.dtrek_image.specs.DtrekImage.{dtrek_answer, dtrek_pixels};
ghost use Rattle.dtrek_report.specs.Report.{dtrek_report};
ghost use Rattle.dtrek_report.specs.Item.{dtrek_item};
ghost use Rattle.smallest.specs.Smallest.{smallest_form};
ghost use Rattle.opening.specs.Open.{open_answer, open_pixels, open_held, chosen_form, smallest_opened};
ghost use Rattle.archive.specs.Calls.{correct_outcome, withdraw_outcome, amend_outcome};
ghost use Rattle.answers.specs.Read.{read_result};
ghost use Rattle.frame_report.specs.Report.{asked_form, write_result, open_result};
ghost use Rattle.form_report.specs.Report.{form_result, open_form_result};
ghost use Rattle.ledger_report.specs.Report.{ledger_result, purge_result, day_result, pixel_result, list_result};
ghost use Rattle.mar_report.specs.Report.{mar_entry_result};
ghost use Rattle.quayrudder.specs.Date.{date};

use answers::ReadResult;
use dtrek_report::{DtrekHeaderReport, DtrekItemReport};
use form_report::{FormResult, OpenFormResult};
use frame_report::{OpenResult, WriteResult};
use header_report::HeaderReport;
use ledger_report::{LedgerResult, ListResult, WhyResult};
use mar_report::MarEntryResult;

// What the header of a frame says.
#[unsafe(no_mangle)]
pub extern "C" fn qr_header(frame: &[u8]) -> HeaderReport
    ensures { result ≡ header_report (header_of frame.now) }
{
    quayrudder::qr_header(frame)
}

// Reads a frame of FORMAT 100 or 86.
#[unsafe(no_mangle)]
pub extern "C" fn qr_read(frame: &[u8], pixels: &mut [u32]) -> ReadResult
    ensures value { result ≡ read_result (read_answer frame.now (length pixels.old)) }
    ensures pixels_after { pixels.new ≡ read_pixels frame.now pixels.old }
{
    quayrudder::qr_read(frame, pixels)
}

// Reads an uncompressed mar image plate.
#[unsafe(no_mangle)]
pub extern "C" fn qr_mar_read(file: &[u8], pixels: &mut [u32]) -> ReadResult
    ensures value { result ≡ read_result (mar_answer file.now (length pixels.old)) }
    ensures pixels_after { pixels.new ≡ mar_pixels file.now pixels.old }
{
    quayrudder::qr_mar_read(file, pixels)
}

// One of the 25 entries of a mar header record, its bits as stored.
#[unsafe(no_mangle)]
pub extern "C" fn qr_mar_entry(file: &[u8], entry: u32) -> MarEntryResult
    ensures { result ≡ mar_entry_result (entry_of file.now entry) }
{
    quayrudder::qr_mar_entry(file, entry)
}

// Reads a d*TREK image.
#[unsafe(no_mangle)]
pub extern "C" fn qr_dtrek_read(file: &[u8], pixels: &mut [u32]) -> ReadResult
    ensures value { result ≡ read_result (dtrek_answer file.now (length pixels.old)) }
    ensures pixels_after { pixels.new ≡ dtrek_pixels file.now pixels.old }
{
    quayrudder::qr_dtrek_read(file, pixels)
}

// What the header of a d*TREK image says.
#[unsafe(no_mangle)]
pub extern "C" fn qr_dtrek_header(file: &[u8]) -> DtrekHeaderReport
    ensures { result ≡ dtrek_report (dtrek_header file.now) }
{
    quayrudder::qr_dtrek_header(file)
}

// The item of a d*TREK header from a place on.
#[unsafe(no_mangle)]
pub extern "C" fn qr_dtrek_item(file: &[u8], at: u64) -> DtrekItemReport
    ensures { result ≡ dtrek_item file.now at }
{
    quayrudder::qr_dtrek_item(file, at)
}

// Writes a frame of FORMAT 100.
#[unsafe(no_mangle)]
pub extern "C" fn qr_write(
    header: &[u8],
    pixels: &[u32],
    width: u32,
    underflow: u32,
    out: &mut [u8],
) -> WriteResult
    ensures value { result ≡ write_result (write_answer header.now (asked_form width underflow) pixels.now (length out.old)) }
    ensures out_after { out.new ≡ write_bytes header.now (asked_form width underflow) pixels.now out.old }
{
    quayrudder::qr_write(header, pixels, width, underflow, out)
}

// Reads a frame, and holds it in the form asked for.
#[unsafe(no_mangle)]
pub extern "C" fn qr_open(
    frame: &[u8],
    pixels: &mut [u32],
    width: u32,
    underflow: u32,
    held: &mut [u8],
) -> OpenResult
    ensures value { result ≡ open_result (open_answer frame.now pixels.old (asked_form width underflow) (length held.old)) }
    ensures pixels_after { pixels.new ≡ open_pixels frame.now pixels.old }
    ensures held_after { held.new ≡ open_held frame.now pixels.old (asked_form width underflow) held.old }
{
    quayrudder::qr_open(frame, pixels, width, underflow, held)
}

// The form in which a frame of this header and these pixels has the fewest bytes.
#[unsafe(no_mangle)]
pub extern "C" fn qr_smallest(header: &[u8], pixels: &[u32]) -> FormResult
    ensures { result ≡ form_result (smallest_form header.now pixels.now) }
{
    quayrudder::qr_smallest(header, pixels)
}

// Reads a frame, and holds it in the smallest form.
#[unsafe(no_mangle)]
pub extern "C" fn qr_open_smallest(
    frame: &[u8],
    pixels: &mut [u32],
    held: &mut [u8],
) -> OpenFormResult
    ensures value { result ≡ open_form_result (smallest_opened frame.now pixels.old (length held.old)) }
    ensures pixels_after { pixels.new ≡ open_pixels frame.now pixels.old }
    ensures held_after { held.new ≡ open_held frame.now pixels.old (Some (chosen_form frame.now pixels.old)) held.old }
{
    quayrudder::qr_open_smallest(frame, pixels, held)
}

// Corrects the count of one pixel of a held frame.
#[unsafe(no_mangle)]
pub extern "C" fn qr_correct(
    held: &mut [u8],
    ledger: &mut [u8],
    lines: u64,
    pixel: u64,
    count: u32,
) -> LedgerResult
    ensures value { result ≡ ledger_result lines (correct_outcome held.old ledger.old lines pixel count).answer }
    ensures held_after { held.new ≡ (correct_outcome held.old ledger.old lines pixel count).held }
    ensures ledger_after { ledger.new ≡ (correct_outcome held.old ledger.old lines pixel count).ledger }
{
    quayrudder::qr_correct(held, ledger, lines, pixel, count)
}

// Takes the last standing line back.
#[unsafe(no_mangle)]
pub extern "C" fn qr_withdraw(held: &mut [u8], ledger: &mut [u8], lines: u64) -> LedgerResult
    ensures value { result ≡ ledger_result lines (withdraw_outcome held.old ledger.old lines).answer }
    ensures held_after { held.new ≡ (withdraw_outcome held.old ledger.old lines).held }
    ensures ledger_after { ledger.new ≡ (withdraw_outcome held.old ledger.old lines).ledger }
{
    quayrudder::qr_withdraw(held, ledger, lines)
}

// Takes the last standing line back, a correction, and corrects its pixel to another count.
#[unsafe(no_mangle)]
pub extern "C" fn qr_amend(
    held: &mut [u8],
    ledger: &mut [u8],
    lines: u64,
    count: u32,
) -> LedgerResult
    ensures value { result ≡ ledger_result lines (amend_outcome held.old ledger.old lines count).answer }
    ensures held_after { held.new ≡ (amend_outcome held.old ledger.old lines count).held }
    ensures ledger_after { ledger.new ≡ (amend_outcome held.old ledger.old lines count).ledger }
{
    quayrudder::qr_amend(held, ledger, lines, count)
}

// Appends a keep line.
#[unsafe(no_mangle)]
pub extern "C" fn qr_keep(
    ledger: &mut [u8],
    lines: u64,
    year: u32,
    month: u32,
    day: u32,
) -> LedgerResult
    ensures value { result ≡ ledger_result lines (keep_answer ledger.old lines (date year month day)) }
    ensures ledger_after { ledger.new ≡ keep_bytes ledger.old lines (date year month day) }
{
    quayrudder::qr_keep(ledger, lines, year, month, day)
}

// Leaves the standing lines of a ledger alone.
#[unsafe(no_mangle)]
pub extern "C" fn qr_compact(ledger: &mut [u8], lines: u64) -> LedgerResult
    ensures value { result ≡ ledger_result lines (compact_answer ledger.old lines) }
    ensures ledger_after { ledger.new ≡ compact_bytes ledger.old lines }
{
    quayrudder::qr_compact(ledger, lines)
}

// May the frame be purged on this day: 0, or the refusal.
#[unsafe(no_mangle)]
pub extern "C" fn qr_may_purge(ledger: &[u8], lines: u64, year: u32, month: u32, day: u32) -> u32
    ensures { result ≡ purge_result (purge_answer ledger.now lines (date year month day)) }
{
    quayrudder::qr_may_purge(ledger, lines, year, month, day)
}

// The purge question with the line that decides it.
#[unsafe(no_mangle)]
pub extern "C" fn qr_why_day(
    ledger: &[u8],
    lines: u64,
    year: u32,
    month: u32,
    day: u32,
) -> WhyResult
    ensures { result ≡ day_result (day_reason ledger.now lines (date year month day)) }
{
    quayrudder::qr_why_day(ledger, lines, year, month, day)
}

// The line that set a pixel, if one did.
#[unsafe(no_mangle)]
pub extern "C" fn qr_why_pixel(ledger: &[u8], lines: u64, pixel: u64) -> WhyResult
    ensures { result ≡ pixel_result (pixel_reason ledger.now lines pixel) }
{
    quayrudder::qr_why_pixel(ledger, lines, pixel)
}

// The listing of a ledger, at the end of the buffer.
#[unsafe(no_mangle)]
pub extern "C" fn qr_list(ledger: &[u8], out: &mut [u8]) -> ListResult
    ensures value { result ≡ list_result (list_answer ledger.now (length out.old)) }
    ensures out_after { out.new ≡ list_bytes ledger.now out.old }
{
    quayrudder::qr_list(ledger, out)
}
