//! The C library. Each call gives one 64-bit number, packed as include/reedlocket.h says.
#![tactic(auto)]

ghost use Rattle.std.specs.Prelude.{◌≡◌, ◌<◌, [], ◌∷◌, cond};
ghost use Rattle.rules.specs.Answers.{number, place, Yes, No, ending_of, measured, issued, tested, walked, filled};
ghost use Rattle.rules.specs.Table.{house};
ghost use Rattle.rules.specs.Promise.{Measured, Masked, Tested, Issued};
ghost use Rattle.rules.specs.Walk.{Walked};
ghost use Rattle.rules.specs.Fields.{Filled, Loaded};
ghost use Rattle.rules.specs.Pack.{Packs, laid, packed, packed_test, packed_walk, packed_fields, verdict_number, ending_number};

use fields::{read, read_rows};
use header::{issue, test};
use rules::{Ending, IssuedHeader, ReadFields, Refusal, WalkEnd};
use walk::walk;
use ways::{distance, masks};

/// Header issue over the fields of a table.
#[unsafe(no_mangle)]
pub extern "C" fn reedlocket_header(fields: &[u8], source: u64, target: u64, out: &mut [u8]) -> u64
    ensures { Packs packed (λ a. Loaded house fields.now source target out.old a out.new) result }
{
    pack(issue_over_fields(fields, source, target, out))
}

/// Header issue in a table, eight entries for each switch.
#[unsafe(no_mangle)]
pub extern "C" fn reedlocket_table_header(
    table: &[u16],
    source: u64,
    target: u64,
    out: &mut [u8],
) -> u64
    ensures { Packs packed (λ a. Issued house table.now source target out.old a out.new) result }
{
    pack(issue(table, source, target, out))
}

/// The distance of a pair.
#[unsafe(no_mangle)]
pub extern "C" fn reedlocket_table_distance(table: &[u16], source: u64, target: u64) -> u64
    ensures { Packs packed (Measured house table.now source target) result }
{
    pack(alone(distance(table, source, target)))
}

/// The mask of each switch for a pair, a byte for each at the start of `out`.
#[unsafe(no_mangle)]
pub extern "C" fn reedlocket_table_masks(
    table: &[u16],
    source: u64,
    target: u64,
    out: &mut [u8],
) -> u64
    ensures { Packs packed (λ a. Masked house table.now source target out.old a out.new) result }
{
    pack(alone(masks(table, source, target, out)))
}

/// The header test: whether every list of ports that the header permits is a delivery.
#[unsafe(no_mangle)]
pub extern "C" fn reedlocket_table_test(
    table: &[u16],
    source: u64,
    target: u64,
    header: &[u8],
) -> u64
    ensures { Packs packed_test (Tested house table.now source target header.now) result }
{
    pack_test(test(table, source, target, header))
}

/// The walk of one packet through the ports that the choice bytes take.
#[unsafe(no_mangle)]
pub extern "C" fn reedlocket_table_walk(
    table: &[u16],
    source: u64,
    header: &[u8],
    choices: &[u8],
) -> u64
    ensures { Packs packed_walk (Walked house table.now source header.now choices.now) result }
{
    pack_walk(walk(table, source, header, choices))
}

/// Reads wiring fields into a table that has room for 512 entries.
#[unsafe(no_mangle)]
pub extern "C" fn reedlocket_fields(fields: &[u8], table: &mut [u16]) -> u64
    ensures { Packs packed_fields (λ a. Filled house fields.now table.old a table.new) result }
{
    pack_fields(read(fields, table))
}

/// Header issue in the table that the fields are; a field that is no entry of it is refused where it begins.
fn issue_over_fields(
    fields: &[u8],
    source: u64,
    target: u64,
    out: &mut [u8],
) -> Result<IssuedHeader, Refusal>
    ensures { Loaded house fields.now source target out.old (issued result) out.new }
{
    // Nothing may allocate: the table is as long as any, and lent on as far as it is filled.
    let mut table = [0; 512];
    let rows = read_rows(fields, &mut table)?;
    issue(&table[..8 * rows.switches as usize], source, target, out)
}

/// Number and distance in 8 bits each, then count and tries in 24 each. The four of these share their `match` alone: a trait for it would say
/// the parts of each type a second time, beside `packed` and its like, and is no plainer.
fn pack(answer: Result<IssuedHeader, Refusal>) -> u64
    ensures { result ≡ packed (issued answer) }
{
    match answer {
        Ok(header) => lay_header(header.distance, header.count, header.tries),
        Err(refusal) => lay_refusal(refusal),
    }
}

/// A distance told alone has count and tries 0.
fn alone(distance: Result<u8, Refusal>) -> Result<IssuedHeader, Refusal>
    ensures { issued result ≡ measured distance }
{
    Ok(IssuedHeader {
        distance: distance?,
        count: 0,
        tries: 0,
    })
}

fn pack_test(answer: Result<bool, Refusal>) -> u64
    ensures { result ≡ packed_test (tested answer) }
{
    match answer {
        Ok(passes) => 256 * verdict_number(passes),
        Err(refusal) => lay_refusal(refusal),
    }
}

fn pack_walk(answer: Result<WalkEnd, Refusal>) -> u64
    ensures { result ≡ packed_walk (walked answer) }
{
    match answer {
        Ok(end) => lay_end(end.ending, end.at, end.hops, end.left),
        Err(refusal) => lay_refusal(refusal),
    }
}

/// Number and switches in 8 bits each, then the offset of the first pair in 48.
fn pack_fields(answer: Result<ReadFields, Refusal>) -> u64
    ensures { result ≡ packed_fields (filled answer) }
{
    match answer {
        Ok(fields) => lay_fields(fields.switches, fields.pairs),
        Err(refusal) => lay_refusal(refusal),
    }
}

/// Count and tries modulo 16777216, 2 to the power 24. Here, above for a verdict and below the parts are laid by products, as the C interface says
/// them (`laid`), and come one by one: a proof knows that a number fits its type where it is a parameter, but not where it is a field of one.
#[tactic(auto, unfolding(rules::specs::Pack::laid))]
fn lay_header(distance: u8, count: u32, tries: u32) -> u64
    ensures { result ≡ laid ((8, 0) ∷ (8, distance) ∷ (24, count) ∷ (24, tries) ∷ []) }
{
    let count = count as u64 % 16777216;
    let tries = tries as u64 % 16777216;
    256 * (distance as u64 + 256 * (count + 16777216 * tries))
}

#[tactic(auto, unfolding(rules::specs::Pack::laid))]
fn lay_end(ending: Ending, at: u16, hops: u8, left: u8) -> u64
    ensures { result ≡ laid ((8, 0) ∷ (8, ending_number (ending_of ending)) ∷ (16, at) ∷ (8, hops) ∷ (8, left) ∷ []) }
{
    let hops_and_left = hops as u64 + 256 * left as u64;
    256 * (ending_number(ending) + 256 * (at as u64 + 65536 * hops_and_left))
}

/// The offset modulo 2 to the power 48.
#[tactic(auto, unfolding(rules::specs::Pack::laid))]
fn lay_fields(switches: u8, pairs: usize) -> u64
    ensures { result ≡ laid ((8, 0) ∷ (8, switches) ∷ (48, pairs) ∷ []) }
{
    256 * (switches as u64 + 256 * (pairs as u64 % 281474976710656))
}

/// The number in the lowest 8 bits, and the place in the 56 above: modulo 2 to the power 56.
#[tactic(auto, unfolding(rules::specs::Pack::laid))]
fn lay_refusal(refusal: Refusal) -> u64
    ensures { result ≡ laid ((8, number refusal) ∷ (56, place refusal) ∷ []) }
{
    refusal.number() as u64 + 256 * (refusal.place() as u64 % 72057594037927936)
}

/// 1 is yes, and 2 is no: the C interface tells a number.
#[tactic(auto, unfolding(rules::specs::Pack::verdict_number))]
fn verdict_number(passes: bool) -> u64
    ensures number { result ≡ verdict_number (cond passes Yes No) }
    ensures byte { result < 256 }
{
    if passes { 1 } else { 2 }
}

/// The endings in their order, from 1 on: the C interface tells a number.
#[tactic(auto, unfolding(rules::specs::Pack::ending_number))]
fn ending_number(ending: Ending) -> u64
    ensures number { result ≡ ending_number (ending_of ending) }
    ensures byte { result < 256 }
{
    match ending {
        Ending::Delivered => 1,
        Ending::Leftover => 2,
        Ending::Empty => 3,
        Ending::Off => 4,
        Ending::Short => 5,
    }
}
