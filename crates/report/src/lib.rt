// The path report as a function from the input's bytes to the text that is printed: a first line of settings, then a
// path log, and out come the total, the error and the heavy paths, or one line that names a refusal.
#![tactic(auto)]

ghost use Rattle.std.specs.Prelude.{◌≡◌, take, IfSome, IfOk, OnOk, Some, None, string_bytes, MatchResult};
ghost use Rattle.report.specs.Header.{pair_of, pair_refusal, header_refusal};
ghost use Rattle.report.specs.Text.{refused_text, total_text, Extends, IsReport};

use fields::{read_weight, split_at_byte};
use figures::Row;
use model::Node;
use pathlog::feed;
use paths::{Paths, Place};
use prefix::Hierarchy;
use refusal::Refusal;
use settings::Settings;
use std::alloc::{AllocError, Global};
use summary::{Listing, Summary};

// The slots of the table that a report counts in.
pub const TABLE_SLOTS: usize = 1024;

// How much of an input is reported.
pub const INPUT_LIMIT: usize = 65_536;

// The part of an input that is reported.
#[tactic(auto, using(std::proofs::lemmas::List::take_min))]
pub fn within_limit(input: &[u8]) -> &[u8]
    ensures { result.now ≡ take 65536 input.now }
{
    &input[..INPUT_LIMIT.min(input.len())]
}

// The two weights of a line, with one space between.
fn read_pair(line: &[u8]) -> Option<(u32, u32)>
    ensures { result ≡ pair_of line.now }
{
    let (width, share) = split_at_byte(line, b' ')?;
    Some((read_weight(width)?, read_weight(share)?))
}

// The settings that the first line says.
fn read_settings(line: &[u8]) -> Result<Settings, Refusal>
    ensures { MatchResult result (λ _. pair_refusal (pair_of line.now) ≡ None) (λ e. pair_refusal (pair_of line.now) ≡ Some e) }
{
    let (width, share) = read_pair(line).ok_or(Refusal::WeightMalformed)?;
    Settings::new(width, share)
}

// The settings in the first line of an input, and the log behind it.
fn read_input(input: &[u8]) -> Result<(Settings, &[u8]), Refusal>
    ensures { MatchResult result (λ _. header_refusal input.now ≡ None) (λ e. header_refusal input.now ≡ Some e) }
{
    let (line, log) = split_at_byte(input, b'\n').ok_or(Refusal::WeightMalformed)?;
    Ok((read_settings(line)?, log))
}

// The one line of a report that is refused. That a text is a report stands in the clauses of three functions: the program
// prints a `String`, and a type around it for the two that are private would be opened again at once.
fn refused_text(heap: Global, refusal: Refusal) -> Result<String, AllocError>
    ensures text { IfOk result (λ t. string_bytes t ≡ refused_text refusal) }
    ensures form { IfOk result (λ t. IsReport (string_bytes t)) }
{
    format!(in heap; "{refusal}\n")
}

fn total_text(heap: Global, total: u64, error: u64) -> Result<String, AllocError>
    ensures { IfOk result (λ t. string_bytes t ≡ total_text total error) }
{
    format!(in heap; "total {total} error {error}\n")
}

// Adds a row to the text: its path, the root's as `/`, and its figures.
fn push_row(text: &mut String, path: &[u8], row: Row<Place>) -> Result<(), AllocError>
    ensures { OnOk result (Extends (string_bytes text.old) (string_bytes text.new)) }
{
    let path = if path.is_empty() { b"/" } else { path };
    text.extend(path.iter().map(|byte| char::from(*byte)))?;
    writeln!(text, " {} {} {}", row.lower, row.upper, row.discounted)
}

// Adds all rows of a listing. There is at most one for each slot, and the root's. A chain of `successors` would say it shorter;
// it was tried while a row had a ghost field, and had no proof then.
fn push_rows(
    text: &mut String,
    paths: &Paths<'_>,
    listing: &mut Listing<'_, Place>,
) -> Result<(), AllocError>
    ensures { OnOk result (Extends (string_bytes text.old) (string_bytes text.new)) }
{
    let mut next = listing.first(paths);
    for _ in 0..=TABLE_SLOTS {
        let Some(row) = next else {
            break;
        };
        push_row(text, paths.part(row.key), row)?;
        next = listing.after(paths, row.key).ok().flatten();
    }
    Ok(())
}

// The report of a log.
fn report_log(heap: Global, settings: Settings, log: &[u8]) -> Result<String, AllocError>
    ensures { IfOk result (λ t. IsReport (string_bytes t)) }
{
    let paths = Paths::new(log);
    let mut table = vec![in heap; Node::vacant(paths.root()); TABLE_SLOTS]?;
    let mut summary = Summary::open(settings, table.as_mut_slice());
    if let Err(stop) = feed(&paths, &mut summary, 0) {
        return refused_text(heap, stop.refusal);
    }
    let mut text = total_text(heap, summary.total(), summary.error())?;
    let mut listing = Listing::open(summary);
    push_rows(&mut text, &paths, &mut listing)?;
    Ok(text)
}

// The text that the path program prints for its input.
pub fn path_report(heap: Global, input: &[u8]) -> Result<String, AllocError>
    ensures form { IfOk result (λ t. IsReport (string_bytes t)) }
    ensures header { IfOk result (λ t. IfSome (header_refusal input.now) (λ e. string_bytes t ≡ refused_text e)) }
{
    match read_input(input) {
        Ok((settings, log)) => report_log(heap, settings, log),
        Err(refusal) => refused_text(heap, refusal),
    }
}
