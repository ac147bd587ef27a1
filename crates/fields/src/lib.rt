//! The reader of wiring fields. The whole input is judged before the first entry is written. Bytes and the lent table come side by side, as in
//! the C call, and a field is told by its offset, since offsets are what callers get.
#![tactic(auto)]

ghost use Rattle.std.specs.Prelude.{◌≡◌, ◌++◌, ◌+◌, ◌*◌, ◌≤◌, ◌<◌, length, drop, not};
ghost use Rattle.rules.specs.Answers.{filled};
ghost use Rattle.rules.specs.Table.{house};
ghost use Rattle.rules.specs.Fields.{two, Filled};
ghost use Rattle.fields.specs.Pairs.{pair_at};
ghost use Rattle.fields.specs.Rows.{read_of, read_memory, rows_of, rows_memory};
ghost use Rattle.rules.specs.RunFields.{is_field, rows, entries};
ghost use Rattle.rules.specs.Sets.{least};

use rules::{ReadFields, Refusal};

/// The two processors of a pair's field.
#[derive(Clone, Copy, Debug, PartialEq, Eq)]
pub struct Ends {
    pub source: u16,
    pub target: u16,
}

/// Fills the table with the entries of the fields of tag 1, and gives the number of switches and where the pairs begin.
pub fn read(bytes: &[u8], table: &mut [u16]) -> Result<ReadFields, Refusal>
    ensures { Filled house bytes.now table.old (filled result) table.new }
{
    let switches = count_rows(bytes);
    let pairs = count_fields(bytes, 2, 4, 19 * switches, bytes.len());
    read_until(bytes, switches, 19 * switches + 7 * pairs, table)
}

/// Fills the table with the entries of an input that is a table alone: there a tag 2 is bad where it stands.
pub fn read_rows(bytes: &[u8], table: &mut [u16]) -> Result<ReadFields, Refusal>
    ensures answer { filled result ≡ rows_of house bytes.now table.old }
    ensures memory { table.new ≡ rows_memory house bytes.now table.old }
{
    let switches = count_rows(bytes);
    read_until(bytes, switches, 19 * switches, table)
}

/// Fills the table with the entries of the first `switches` fields, where the fields before the first bad one end at `end`.
fn read_until(
    bytes: &[u8],
    switches: usize,
    end: usize,
    table: &mut [u16],
) -> Result<ReadFields, Refusal>
    requires { switches ≡ rows bytes.now 64 }
    ensures answer { filled result ≡ read_of house bytes.now table.old end }
    ensures memory { table.new ≡ read_memory house bytes.now table.old end }
{
    if end < bytes.len() {
        return Err(Refusal::BadField { at: end });
    }
    if table.len() < 512 {
        return Err(Refusal::ShortOutput);
    }
    fill(bytes, switches, table);
    Ok(ReadFields {
        switches: switches as u8,
        pairs: 19 * switches,
    })
}

/// The processors of the pair whose field begins at this offset; 0 and 0 where the input has no seven bytes from there.
#[tactic(auto, unfolding(crate::specs::Pairs::pair_at))]
pub fn pair(bytes: &[u8], at: usize) -> Ends
    ensures { result ≡ pair_at bytes.now at }
{
    // No Option: `pair_at`, which it promises, names the zeros, and what could not fail still can't.
    if bytes.len() < 7 || bytes.len() - 7 < at {
        return Ends {
            source: 0,
            target: 0,
        };
    }
    Ends {
        source: number_at(bytes, at + 3),
        target: number_at(bytes, at + 5),
    }
}

/// How many fields of tag 1 stand at the start, at most 64.
#[tactic(auto, using(crate::proofs::Laws::rows_counted))]
fn count_rows(bytes: &[u8]) -> usize
    ensures { result ≡ rows bytes.now 64 }
{
    // The tags 1 and 2 stay numbers, as the C interface lends them.
    count_fields(bytes, 1, 16, 0, 64)
}

/// How many whole fields of this tag and length stand one after another from the offset `from` on, at most `most`.
#[tactic(auto, using(crate::proofs::Laws::counting))]
fn count_fields(bytes: &[u8], tag: u8, size: usize, from: usize, most: usize) -> usize
    requires { (size < 256) × (from ≤ length bytes.now) }
    ensures { result ≡ least most (λ k. not (is_field bytes.now tag size (from + (3 + size) * k))) }
{
    for k in 0..most {
        if !is_field(bytes, tag, size, from + (3 + size) * k) {
            return k;
        }
    }
    most
}

/// Whether a whole field of this tag and length stands at the offset.
#[tactic(auto, unfolding(rules::specs::RunFields::is_field))]
fn is_field(bytes: &[u8], tag: u8, size: usize, at: usize) -> bool
    requires { (size < 256) × (at ≤ length bytes.now) }
    ensures { result ≡ is_field bytes.now tag size at }
{
    bytes.len() - at >= 3 + size && bytes[at] == tag && number_at(bytes, at + 1) as usize == size
}

/// Writes the entries of the first `switches` fields over the start of the table.
#[tactic(auto, using(crate::proofs::Laws::filled_more, crate::proofs::Laws::filled_all))]
fn fill(bytes: &[u8], switches: usize, table: &mut [u16])
    requires { (8 * switches ≤ length table.old) × (19 * switches ≤ length bytes.now) }
    ensures { table.new ≡ entries bytes.now switches ++ drop (8 * switches) table.old }
{
    for i in 0..8 * switches {
        table[i] = number_at(bytes, 19 * (i / 8) + 3 + 2 * (i % 8));
    }
}

/// The two-byte number at an offset.
fn number_at(bytes: &[u8], at: usize) -> u16
    requires { at + 1 < length bytes.now }
    ensures { result ≡ two bytes.now at }
{
    u16::from_be_bytes([bytes[at], bytes[at + 1]])
}
