//! A table of at most 64 switches, and what each port of a switch leads to.

ghost use Rattle.std.specs.Prelude.{◌≡◌, ◌≤◌, ◌<◌};
ghost use Rattle.rules.specs.Table.{house, leads, far_of, switches};
ghost use Rattle.wiring.specs.Entries.{Inside, entry_at};

use crate::entry;
use rules::Entry;

/// A wiring table of at most 64 switches, whatever its entries. The bound is a fact of the type, so a function that is given a fabric keeps
/// what it knows of each switch in an array of 64, or in the bits of one number, and asks for no bound. That a switch is one of the fabric's is
/// asked where it is needed: it is a fact of two values, and no type of one of them has it.
#[derive(Clone, Copy)]
pub struct Fabric<'a> {
    pub table: &'a [u16],
    pub ghost few: { switches table.now ≤ 64 },
}

impl Fabric<'_> {
    /// What port `p` of switch `s` leads to; where there is no such switch or port, nothing. A switch that the entry names is below 64.
    #[tactic(auto, using(crate::proofs::Reading::entry_leads), unfolding(rules::specs::Table::switches))]
    pub fn entry(&self, s: usize, p: usize) -> Entry
        ensures is { result ≡ entry_at self.now.table.now s p }
        ensures leads { leads result ≡ far_of house self.now.table.now s p }
        ensures inside { Inside result }
    {
        let n = self.table.len() / 8;
        if s < n && p < 8 {
            entry(self.table[8 * s + p], n)
        } else {
            Entry::Nothing
        }
    }
}
