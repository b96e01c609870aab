// Words and rounds made of codes.
ghost use Rattle.std.specs.Prelude.{◌≡◌, ◌<◌, IfSome, IfOk, All, IsTrue, length};
ghost use Rattle.masked_compare.specs.Fields.{lane_count};
ghost use Rattle.masked_compare.specs.Words.{IsClean, IsRow};
ghost use Rattle.lane_scan.specs.Scan.{IsSpreadRound};

use blink_lists::full_size;
use lane_scan::Round;
use masked_compare::Shape;
use std::alloc::{AllocError, Global};

// Whether there is one code for each field, each within its width.
fn is_row(widths: &[u8], codes: &[u32]) -> bool
    ensures { IsTrue result → IsRow widths.now codes.now }
{
    if widths.len() != codes.len() {
        return false;
    }
    for column in 0..widths.len() {
        if widths[column] > 24 || codes[column] as usize >= full_size(widths[column]) {
            return false;
        }
    }
    true
}

// The word with the same row in every lane.
pub(crate) fn spread(shape: Shape, widths: &[u8], codes: &[u32]) -> Option<u64>
    requires { shape ≡ widths.now }
    ensures { IfSome result (λ word. IsClean shape word) }
{
    if is_row(widths, codes) {
        Some(shape.spread(codes))
    } else {
        None
    }
}

// The round of some bounds.
fn round_of(shape: Shape, widths: &[u8], lows: &[u32], highs: &[u32]) -> Option<Round>
    requires { shape ≡ widths.now }
    ensures { IfSome result (λ round. IsSpreadRound shape round) }
{
    if !is_row(widths, lows) {
        return None;
    }
    if !is_row(widths, highs) {
        return None;
    }
    Some(Round {
        low: shape.spread(lows),
        high: shape.spread(highs),
    })
}

// The rounds of some bounds: for each its lows, then its highs.
pub(crate) fn rounds_of(
    alloc: Global,
    shape: Shape,
    widths: &[u8],
    bounds: &[u32],
) -> Result<Vec<Round>, AllocError>
    requires { shape ≡ widths.now }
    ensures { IfOk result (λ rounds. All (IsSpreadRound shape) rounds.items) }
{
    let mut rounds = Vec::new(alloc);
    for at in 0..8 {
        let (lows, highs) = bounds_at(bounds, widths.len(), at);
        let Some(round) = round_of(shape, widths, lows, highs) else {
            return Ok(rounds);
        };
        rounds.push(round)?;
    }
    Ok(rounds)
}

// The lows and the highs of a round; none behind the last.
fn bounds_at(bounds: &[u32], fields: usize, at: usize) -> (&[u32], &[u32]) {
    let from = at
        .saturating_mul(fields)
        .saturating_mul(2)
        .min(bounds.len());
    let (_, rest) = bounds.split_at(from);
    let (lows, behind) = rest.split_at(fields.min(rest.len()));
    let (highs, _) = behind.split_at(fields.min(behind.len()));
    (lows, highs)
}

// The word with some codes in a lane, from a place of them on; those that don't fit are left out.
fn with_row(shape: Shape, widths: &[u8], word: u64, lane: usize, codes: &[u32], from: usize) -> u64
    requires same { shape ≡ widths.now }
    requires lane { lane < lane_count shape }
    requires clean { IsClean shape word }
    ensures { IsClean shape result }
{
    let mut word = word;
    for column in 0..widths.len() {
        let place = from.saturating_add(column);
        if place < codes.len() && widths[column] <= 24 {
            let code = codes[place];
            if (code as usize) < full_size(widths[column]) {
                word = shape.set_field(word, lane, column, code);
            }
        }
    }
    word
}

// The word of the rows from one on, zero behind the last.
fn word_of(shape: Shape, widths: &[u8], zero: u64, codes: &[u32], first: usize, rows: usize) -> u64
    requires same { shape ≡ widths.now }
    requires clean { IsClean shape zero }
    ensures { IsClean shape result }
{
    let mut word = zero;
    for lane in 0..shape.lanes() {
        let row = first.saturating_add(lane);
        if row < rows {
            word = with_row(
                shape,
                widths,
                word,
                lane,
                codes,
                row.saturating_mul(widths.len()),
            );
        }
    }
    word
}

// So many words of the first so many rows, zero behind the last.
pub(crate) fn words_of(
    alloc: Global,
    shape: Shape,
    widths: &[u8],
    codes: &[u32],
    words: usize,
    rows: usize,
) -> Result<Vec<u64>, AllocError>
    requires { shape ≡ widths.now }
    ensures { IfOk result (λ words. All (IsClean shape) words.items) }
{
    let mut made = Vec::new(alloc);
    let zeros = [0; 16];
    if let Some(zero) = spread(shape, widths, &zeros[..widths.len().min(16)]) {
        for at in 0..words {
            let first = at.saturating_mul(shape.lanes());
            made.push(word_of(shape, widths, zero, codes, first, rows))?;
        }
    }
    Ok(made)
}
