//! The walk of one packet through chosen ports. One hop is a function of its own; the walk is hops until an ending. Table, processor,
//! words and choice bytes come side by side, as the C call lends them.
#![tactic(auto)]

ghost use Rattle.std.specs.Prelude.{◌≡◌, zero, ◌≤◌, ◌<◌, Ok};
ghost use Rattle.rules.specs.Answers.{walked};
ghost use Rattle.rules.specs.Table.{house, switches, far_of};
ghost use Rattle.rules.specs.Walk.{Walked, port};
ghost use Rattle.rules.specs.RunWalk.{walk_from};
ghost use Rattle.walk.specs.Step.{step_of, stopped, Walkable};

use rules::{Ending, Entry, Refusal, WalkEnd};
use wiring::{Fabric, find, judge};

/// What comes of one hop: the packet is at a switch or at a processor, the port has no link, or the word is 0.
#[derive(Clone, Copy, Debug, PartialEq, Eq)]
enum Step {
    Moved(usize),
    Arrived(u16),
    Off,
    Empty,
}

/// Walks one packet from the processor `source`, with the header's words and a choice byte for each.
pub fn walk(table: &[u16], source: u64, header: &[u8], choices: &[u8]) -> Result<WalkEnd, Refusal>
    ensures { Walked house table.now source header.now choices.now (walked result) }
{
    judge(table)?;
    let Some(at) = find(table, source) else {
        return Err(Refusal::NotAttached);
    };
    if 8 < header.len() {
        return Err(Refusal::LongHeader);
    }
    if choices.len() < header.len() {
        return Err(Refusal::FewChoices);
    }
    Ok(from_switch(&Fabric { table }, at / 8, header, choices))
}

fn ended(ending: Ending, at: u16, hops: usize, left: usize) -> WalkEnd
    requires { (hops ≤ 8) × (left ≤ 8) }
    ensures { result ≡ record { ending = ending; at = at; hops = hops; left = left } }
{
    WalkEnd {
        ending,
        at,
        hops: hops as u8,
        left: left as u8,
    }
}

/// Hops from a switch until an ending.
fn from_switch(fabric: &Fabric, home: usize, header: &[u8], choices: &[u8]) -> WalkEnd
    requires { Walkable fabric.now.table.now home header.now choices.now }
    ensures { walked (Ok result) ≡ stopped (walk_from (far_of house fabric.now.table.now) header.now choices.now home 0) }
{
    let words = header.len();
    let mut s = home;
    for i in 0..words {
        match hop(fabric, s, header[i], choices[i]) {
            Step::Moved(t) => s = t,
            Step::Arrived(a) if i + 1 == words => {
                return ended(Ending::Delivered, a, i + 1, 0);
            }
            Step::Arrived(a) => {
                return ended(Ending::Leftover, a, i + 1, words - i - 1);
            }
            Step::Off => {
                return ended(Ending::Off, s as u16, i, words - i);
            }
            Step::Empty => {
                return ended(Ending::Empty, s as u16, i, words - i);
            }
        }
    }
    ended(Ending::Short, s as u16, words, 0)
}

/// One hop from switch s by a word and a choice byte.
#[tactic(auto, using(crate::proofs::Laws::hopping), unfolding(crate::specs::Step::crossing, rules::specs::Table::leads))]
fn hop(fabric: &Fabric, s: usize, word: u8, choice: u8) -> Step
    requires { s < switches fabric.now.table.now }
    ensures { result ≡ step_of (far_of house fabric.now.table.now) s word choice }
{
    if word == 0 {
        return Step::Empty;
    }
    match fabric.entry(s, chosen(word, choice)) {
        Entry::Switch(t) => Step::Moved(t as usize),
        Entry::Node(a) => Step::Arrived(a),
        Entry::Nothing | Entry::Bad => Step::Off,
    }
}

/// The permitted port with exactly (choice modulo k) permitted ports below it, k the number of permitted ports.
#[tactic(auto, using(crate::proofs::Laws::choosing), unfolding(rules::specs::Sets::count, rules::specs::Sets::sum))]
fn chosen(word: u8, choice: u8) -> usize
    requires { zero < word }
    ensures { result ≡ port word choice }
{
    let wanted = choice as u32 % word.count_ones();
    let mut below = 0;
    for p in 0..8 {
        if (word >> p) & 1 == 1 {
            if below == wanted {
                return p;
            }
            below += 1;
        }
    }
    // Never reached, since the word is not 0; `port`, which it gives, says 8 here.
    8
}
