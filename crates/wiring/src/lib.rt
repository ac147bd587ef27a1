//! Reading a wiring table: what an entry is, whether the table is sound, where a processor stands, and what a port leads to.
//! Tables are numbers, as C callers lend them; what they mean is read here alone. How many switches there are is worked out where it is needed,
//! as `len() / 8`: a table that is not judged has no type of its own, and one for a length alone is no plainer.
#![tactic(auto)]

ghost use Rattle.std.specs.Prelude.{◌≡◌, ◌*◌, length};
ghost use Rattle.rules.specs.Answers.{judged};
ghost use Rattle.rules.specs.Look.{least_at};
ghost use Rattle.rules.specs.Table.{house, kind, kind_at, switches};
ghost use Rattle.rules.specs.Promise.{Judged};
ghost use Rattle.rules.specs.RunTable.{bad_at, again, is_entry_of};

mod fabric;

pub use fabric::Fabric;
use rules::{Entry, Refusal};

/// What the entry `x` is in a table of `n` switches.
#[tactic(auto, using(crate::proofs::Laws::kind_link, crate::proofs::Laws::kind_processor, crate::proofs::Laws::kind_none, crate::proofs::Laws::kind_low, crate::proofs::Laws::kind_high))]
pub fn entry(x: u16, n: usize) -> Entry
    ensures { result ≡ kind house n x }
{
    if (x as usize) < n {
        return Entry::Switch(x);
    }
    // The numbers are those of the table, as C callers lend them.
    match x {
        1000..=1511 => Entry::Node(x - 1000),
        65535 => Entry::Nothing,
        _ => Entry::Bad,
    }
}

/// Judges a table: it is refused for its length, for an entry of no kind, or for a processor at two ports, in this order.
pub fn judge(table: &[u16]) -> Result<(), Refusal>
    ensures { Judged house table.now (judged result) }
{
    let length = table.len();
    if length == 0 || 512 < length || length % 8 != 0 {
        return Err(Refusal::WrongLength);
    }
    if let Some(at) = first_bad(table) {
        return Err(Refusal::BadEntry { at });
    }
    if let Some(at) = first_again(table) {
        return Err(Refusal::ProcessorTwice { at });
    }
    Ok(())
}

/// The lowest index whose entry is of no kind.
fn first_bad(table: &[u16]) -> Option<usize>
    ensures { result ≡ least_at (length table.now) (bad_at house table.now) }
{
    let n = table.len() / 8;
    for i in 0..table.len() {
        if let Entry::Bad = entry(table[i], n) {
            return Some(i);
        }
    }
    None
}

/// The lowest index whose processor stands at a lower index too.
fn first_again(table: &[u16]) -> Option<usize>
    ensures { result ≡ least_at (length table.now) (again house table.now) }
{
    let n = table.len() / 8;
    // The rules name this form: a scan left by a label, with the index.
    'scan: {
        for i in 0..table.len() {
            if let Entry::Node(_) = entry(table[i], n) {
                // No exit of its own: so many entries are compared at once, and with one the judge takes four times as long.
                let mut met = false;
                for j in 0..i {
                    met |= table[j] == table[i];
                }
                if met {
                    break 'scan Some(i);
                }
            }
        }
        None
    }
}

/// The index at which the processor stands, so port index % 8 of switch index / 8. A scan as in `first_bad`, for another question and another
/// end; one function that takes the question is no plainer.
pub fn find(table: &[u16], node: u64) -> Option<usize>
    ensures { result ≡ least_at (8 * switches table.now) (λ i. is_entry_of node (kind_at house table.now i)) }
{
    let n = table.len() / 8;
    for i in 0..8 * n {
        if let Entry::Node(a) = entry(table[i], n) {
            if a as u64 == node {
                return Some(i);
            }
        }
    }
    None
}
