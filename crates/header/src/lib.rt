//! The header: the test of any header, the search for the widest one, and its issue. Sets of switches are 64-bit numbers. A table and two
//! processors are three parameters of the public functions, as they are of the C calls.
#![tactic(auto)]

ghost use Rattle.std.specs.Prelude.{◌≡◌, true, ◌+◌, ◌-◌, ◌^◌, ◌<◌, MatchOption};
ghost use Rattle.std.specs.Iterator.{at_most};
ghost use Rattle.rules.specs.Answers.{issued, tested};
ghost use Rattle.rules.specs.Sets.{within};
ghost use Rattle.rules.specs.Table.{house};
ghost use Rattle.rules.specs.Tries.{common, chooses, reach};
ghost use Rattle.rules.specs.Promise.{Tested, Issued};
ghost use Rattle.header.specs.Search.{next_choice, Searches, Recalls, Alike, Grouped, singles, joined, found_of, Leaves};
ghost use Rattle.header.specs.Nets.{far, size, mask};
ghost use Rattle.header.specs.Pairs.{issue_pair, issue_pair_memory, test_pair};

use found::{Found, Kept, last, recalled, total, wider, within, write};
use rules::{Entry, IssuedHeader, Refusal};
use ways::mask_pair;
use wiring::{Fabric, judge};

/// Issues the widest header of a pair into the first eight bytes of `out`: its words, then zeros.
pub fn issue(
    table: &[u16],
    source: u64,
    target: u64,
    out: &mut [u8],
) -> Result<IssuedHeader, Refusal>
    ensures { Issued house table.now source target out.old (issued result) out.new }
{
    judge(table)?;
    issue_pair(table, source, target, out)
}

/// Header issue in a table that has been judged; on any other table it is what issue_pair of specs/Pairs says.
pub fn issue_pair(
    table: &[u16],
    source: u64,
    target: u64,
    out: &mut [u8],
) -> Result<IssuedHeader, Refusal>
    ensures answer { issued result ≡ issue_pair house table.now source target out.old }
    ensures memory { out.new ≡ issue_pair_memory house table.now source target out.old }
{
    let pair = mask_pair(table, source, target)?;
    if out.len() < 8 {
        return Err(Refusal::ShortOutput);
    }
    let hops = pair.distance as usize;
    let fabric = Fabric { table };
    let net = Net {
        fabric,
        masks: &pair.masks,
    };
    let Some(found) = widest(&net, 1 << pair.home, hops, 65536) else {
        return Err(Refusal::TooManyTries);
    };
    write(&found.words[8 - hops..], out);
    Ok(IssuedHeader {
        distance: pair.distance,
        count: found.count,
        tries: found.tries,
    })
}

/// The header test of a pair: whether each list of ports that the header permits leads to the target in the fewest hops.
pub fn test(table: &[u16], source: u64, target: u64, header: &[u8]) -> Result<bool, Refusal>
    ensures { Tested house table.now source target header.now (tested result) }
{
    judge(table)?;
    test_pair(table, source, target, header)
}

/// The header test in a table that has been judged; on any other table it is what test_pair of specs/Pairs says.
pub fn test_pair(table: &[u16], source: u64, target: u64, header: &[u8]) -> Result<bool, Refusal>
    ensures { tested result ≡ test_pair house table.now source target header.now }
{
    let pair = mask_pair(table, source, target)?;
    if header.len() != pair.distance as usize {
        return Ok(false);
    }
    let fabric = Fabric { table };
    let net = Net {
        fabric,
        masks: &pair.masks,
    };
    Ok(stages_pass(&net, 1 << pair.home, header))
}

/// Whether each word is a nonempty choice among the ports common to the masks of the set it meets.
#[tactic(auto, using(crate::proofs::StageLaws::passing_empty, crate::proofs::StageLaws::passing_outside, crate::proofs::StageLaws::passing_all))]
fn stages_pass(net: &Net, start: u64, header: &[u8]) -> bool
    requires { start < 2 ^ size net.now }
    ensures { result ≡ chooses (far net.now) (size net.now) (mask net.now) start header.now }
{
    let mut set = start;
    for &w in header {
        if w == 0 {
            return false;
        }
        if w & net.common_of(set) != w {
            return false;
        }
        set = join(&net.by_port(set, w), w);
    }
    true
}

/// The widest header with `left` words from a set of switches, or None where its tries would pass the budget.
fn widest(net: &Net, set: u64, left: usize, budget: u32) -> Option<Found>
    requires { Searches net.now.fabric.table.now set left }
    ensures { result ≡ found_of (far net.now) (size net.now) (mask net.now) set left budget }
{
    let mut kept = None;
    net.seek(set, left, budget, &mut kept)
}

/// A fabric and the masks of its switches. That a set holds switches of the fabric alone is asked where it is needed: it is a fact of two values.
#[derive(Clone, Copy)]
struct Net<'t, 'm> {
    fabric: Fabric<'t>,
    masks: &'m [u8; 64],
}

impl Net<'_, '_> {
    /// The search for the widest header: each nonempty choice among the common ports is tried in rising order, and only a strictly wider header
    /// replaces the best. Where a choice reaches the set that was searched last, what was found from it is recalled; `kept` is what is kept of it,
    /// from one call at a stage to the next.
    fn seek(&self, set: u64, left: usize, budget: u32, kept: &mut Option<Kept>) -> Option<Found>
        requires searches { Searches self.now.fabric.table.now set left }
        requires recalls { Recalls (far self.now) (size self.now) (mask self.now) (left - 1) kept.old }
        ensures is { result ≡ found_of (far self.now) (size self.now) (mask self.now) set left budget }
        ensures recalls { Recalls (far self.now) (size self.now) (mask self.now) (left - 1) kept.new }
    {
        let ports = self.common_of(set);
        if left == 1 {
            return Some(last(ports));
        }
        let sets = self.grouped(set, ports);
        let mut below = None;
        let mut best = last(0);
        let mut tries = 0;
        for word in Choices::of(ports) {
            if tries == budget {
                return None;
            }
            let room = budget - tries - 1;
            let reached = join(&sets, word);
            let found = match recalled(*kept, reached) {
                Some(found) => found,
                None => {
                    let found = self.seek(reached, left - 1, room, &mut below)?;
                    *kept = Some(Kept {
                        set: reached,
                        found,
                    });
                    found
                }
            };
            let rest = within(found, room)?;
            tries += 1 + rest.tries;
            best = wider(best, rest, word, left);
        }
        total(best, tries, budget).ok()
    }

    /// The ports common to the masks of all switches of the set.
    #[tactic(auto, using(crate::proofs::ScanLaws::left_start, crate::proofs::ScanLaws::common_start, crate::proofs::ScanLaws::common_all))]
    fn common_of(&self, set: u64) -> u8
        ensures { result ≡ common 64 (mask self.now) set }
    {
        let mut ports = 255;
        for s in Switches(set) {
            ports &= self.masks[s];
        }
        ports
    }

    /// For each of the ports alone, the set that it reaches from the set; for the others the empty set.
    #[tactic(auto, using(crate::proofs::StoreLaws::ports_all))]
    fn by_port(&self, set: u64, ports: u8) -> [u64; 8]
        requires { set < 2 ^ size self.now }
        ensures { result ≡ singles (far self.now) (size self.now) set ports }
    {
        let mut sets = [0; 8];
        for p in 0..8 {
            if ports >> p & 1 == 1 {
                sets[p] = self.follow(set, p);
            }
        }
        sets
    }

    /// For each of the ports a set from which the search goes on as from the one that the port alone reaches. Ports that follow each other and
    /// are alike have the set of the first of them, so that it is searched once.
    #[tactic(auto, using(crate::proofs::GroupLaws::grouping_start))]
    fn grouped(&self, set: u64, ports: u8) -> [u64; 8]
        requires { set < 2 ^ size self.now }
        ensures { Grouped (far self.now) (size self.now) (mask self.now) set ports result }
    {
        let mut sets = self.by_port(set, ports);
        // The empty set to begin with: it is a set like any other, and an Option no plainer.
        let mut first: u64 = 0;
        for p in 0..8 {
            if ports >> p & 1 == 1 {
                if self.alike(first, sets[p]) {
                    sets[p] = first;
                } else {
                    first = sets[p];
                }
            }
        }
        sets
    }

    /// Whether the search surely goes on alike from two sets: they have the same common ports, and each of these reaches the same set from both.
    #[tactic(auto, using(crate::proofs::GroupLaws::same_in, crate::proofs::GroupLaws::same_out, crate::proofs::GroupLaws::same_all))]
    fn alike(&self, a: u64, b: u64) -> bool
        requires { (a < 2 ^ size self.now) × (b < 2 ^ size self.now) }
        ensures { result ≡ true → Alike (far self.now) (size self.now) (mask self.now) a b }
    {
        let ports = self.common_of(a);
        if self.common_of(b) != ports {
            return false;
        }
        for p in 0..8 {
            if ports >> p & 1 == 1 && self.follow(a, p) != self.follow(b, p) {
                return false;
            }
        }
        true
    }

    /// The set that port p reaches from the set.
    fn follow(&self, set: u64, p: usize) -> u64
        requires { (set < 2 ^ size self.now) × (p < 8) }
        ensures { result ≡ reach (far self.now) (size self.now) set (2 ^ p) }
    {
        let mut reached = 0;
        for s in Switches(set) {
            if let Entry::Switch(t) = self.fabric.entry(s, p) {
                reached |= 1u64 << t;
            }
        }
        reached
    }
}

/// The nonempty choices among some ports, in rising order: those above the last one given, which is 0 before the first.
#[derive(Drop)]
struct Choices {
    ports: u8,
    last: u8,
    ghost part: { within last ports ≡ true },
}

impl Choices {
    /// All choices among the ports.
    #[tactic(auto, using(crate::proofs::ChoiceLaws::none_part))]
    fn of(ports: u8) -> Choices
        ensures { (result.ports ≡ ports) × (result.last ≡ 0) }
    {
        Choices { ports, last: 0 }
    }
}

impl Iterator for Choices {
    type Item = u8;

    ghost next_gives = { λ old w new. (new.ports ≡ old.ports) × MatchOption w (next_choice (old.last + 1) old.ports ≡ 256) (λ w. (w ≡ next_choice (old.last + 1) old.ports) × (new.last ≡ w)) };

    ghost remaining = { λ rest. at_most (rest.ports - rest.last) };

    #[tactic(auto, using(crate::proofs::ChoiceLaws::step_last, crate::proofs::ChoiceLaws::step_next, crate::proofs::ChoiceLaws::part_and, crate::proofs::ChoiceLaws::goes_on))]
    fn next(&mut self) -> Option<u8> {
        if self.last == self.ports {
            return None;
        }
        // the bits outside the ports carry a one on to the next port
        self.last = self.last.wrapping_sub(self.ports) & self.ports;
        Some(self.last)
    }
}

/// The switches of a set, lowest first.
#[derive(Drop)]
struct Switches(u64);

impl Iterator for Switches {
    type Item = usize;

    ghost next_gives = { λ old s new. MatchOption s (old.0 ≡ 0) (λ s. Leaves old.0 s new.0) };

    ghost remaining = { λ rest. at_most rest.0 };

    fn next(&mut self) -> Option<usize> {
        if self.0 == 0 {
            return None;
        }
        let s = self.0.trailing_zeros() as usize;
        self.0 &= !(1 << s);
        Some(s)
    }
}

/// The set that the ports of a word reach together.
#[tactic(auto, using(crate::proofs::LeafLaws::joined_in, crate::proofs::LeafLaws::joined_out), unfolding(crate::specs::Search::joined))]
fn join(sets: &[u64; 8], w: u8) -> u64
    ensures { result ≡ joined sets.now w 8 }
{
    let mut set = 0;
    for p in 0..8 {
        if w >> p & 1 == 1 {
            set |= sets[p];
        }
    }
    set
}
