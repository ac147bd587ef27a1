//! The worked cases of judge, distance and mask issue, a few in each function. A case is its parameters, as in on_header: a struct of them would
//! be named at every line.
use crate::bytes;
use networks::{A, B, C};
use rules::Refusal;
use show::told;
use std::io;

pub(crate) fn run(rt: &impl Print) -> io::Result<()> {
    judges(rt)?;
    distances(rt)?;
    masks_of_a(rt)?;
    masks_of_b_and_c(rt)?;
    self_link(rt)?;
    full_table(rt)?;
    Ok(())
}

fn judges(rt: &impl Print) -> io::Result<()> {
    judged_lengths(rt)?;
    judged_entries(rt)?;
    judged_again(rt)?;
    Ok(())
}

fn judged_lengths(rt: &impl Print) -> io::Result<()> {
    judged(rt, "judge A:", &A)?;
    judged(rt, "judge of length 0:", &A[..0])?;
    judged(rt, "judge of length 7:", &A[..7])?;
    let long = [65535u16; 520];
    judged(rt, "judge of length 520:", &long)?;
    Ok(())
}

fn judged_entries(rt: &impl Print) -> io::Result<()> {
    let mut t = A;
    t[0] = 4;
    judged(rt, "judge with 4 at index 0:", &t)?;
    t[0] = 1000;
    t[31] = 1512;
    judged(rt, "judge with 1512 at the last index:", &t)?;
    Ok(())
}

fn judged_again(rt: &impl Print) -> io::Result<()> {
    let mut t = A;
    t[31] = 1003;
    judged(rt, "judge with processor 3 again at the last index:", &t)?;
    t[31] = 65535;
    t[1] = 1000;
    judged(rt, "judge with processor 0 again at index 1:", &t)?;
    t[30] = 999;
    judged(rt, "judge with 999 at index 30 too:", &t)?;
    Ok(())
}

fn distances(rt: &impl Print) -> io::Result<()> {
    measured(rt, "A 0 to 2:", &A, 0, 2)?;
    measured(rt, "A 0 to 1:", &A, 0, 1)?;
    measured(rt, "A 3 to 3:", &A, 3, 3)?;
    distances_unattached(rt)?;
    distances_of_b_and_c(rt)?;
    Ok(())
}

fn distances_unattached(rt: &impl Print) -> io::Result<()> {
    measured(rt, "A 0 to 9:", &A, 0, 9)?;
    measured(rt, "A 512 to 0:", &A, 512, 0)?;
    measured(rt, "A 0 to 65535:", &A, 0, 65535)?;
    measured(rt, "A 65536 to 2:", &A, 65536, 2)?;
    Ok(())
}

fn distances_of_b_and_c(rt: &impl Print) -> io::Result<()> {
    measured(rt, "B 0 to 1:", &B, 0, 1)?;
    measured(rt, "B 1 to 0:", &B, 1, 0)?;
    measured(rt, "C 0 to 7:", &C, 0, 7)?;
    measured(rt, "C 0 to 8:", &C, 0, 8)?;
    Ok(())
}

fn masks_of_a(rt: &impl Print) -> io::Result<()> {
    masked(rt, "masks A 0 to 2:", &A, 0, 2, 4)?;
    masked(rt, "masks A 2 to 0, six bytes lent:", &A, 2, 0, 6)?;
    masked(rt, "masks A 0 to 2, three bytes lent:", &A, 0, 2, 3)?;
    masked(rt, "masks A 3 to 3, no byte lent:", &A, 3, 3, 0)?;
    Ok(())
}

fn masks_of_b_and_c(rt: &impl Print) -> io::Result<()> {
    masked(rt, "masks B 0 to 1:", &B, 0, 1, 4)?;
    masked(rt, "masks C 0 to 7:", &C, 0, 7, 9)?;
    masked(rt, "masks C 0 to 8:", &C, 0, 8, 9)?;
    Ok(())
}

/// A with switch 0 naming itself and a second cable to switch 2.
fn self_link(rt: &impl Print) -> io::Result<()> {
    let mut t = A;
    t[6] = 0;
    t[7] = 2;
    measured(
        rt,
        "A with a self link and a parallel one, 0 to 2:",
        &t,
        0,
        2,
    )?;
    masked(rt, "masks of it:", &t, 0, 2, 4)?;
    Ok(())
}

/// 64 switches with eight processors each: no link at all.
fn full_table(rt: &impl Print) -> io::Result<()> {
    let mut t = all_processors();
    judged(rt, "judge of the full table:", &t)?;
    measured(rt, "full 0 to 7:", &t, 0, 7)?;
    measured(rt, "full 511 to 504:", &t, 511, 504)?;
    measured(rt, "full 0 to 8:", &t, 0, 8)?;
    t[511] = 1000;
    judged(
        rt,
        "judge of the full table with processor 0 again at the end:",
        &t,
    )?;
    Ok(())
}

fn all_processors() -> [u16; 512] {
    let mut t = [0u16; 512];
    for i in 0..512u16 {
        t[i as usize] = 1000 + i;
    }
    t
}

fn judged(rt: &impl Print, what: &str, table: &[u16]) -> io::Result<()> {
    let (number, place) = told(&wiring::judge(table));
    println!(rt; "{what} {number} {place}")
}

fn measured(
    rt: &impl Print,
    what: &str,
    table: &[u16],
    source: u64,
    target: u64,
) -> io::Result<()> {
    print!(rt; "{what}")?;
    told_distance(rt, ways::distance(table, source, target))?;
    println!(rt;)
}

/// The first nine bytes of a buffer of 7s of which `lent` are lent.
fn masked(
    rt: &impl Print,
    what: &str,
    table: &[u16],
    source: u64,
    target: u64,
    lent: usize,
) -> io::Result<()> {
    let mut out = [7u8; 9];
    print!(rt; "{what}")?;
    told_distance(
        rt,
        ways::masks(table, source, target, &mut out[..lent.min(9)]),
    )?;
    print!(rt; " :")?;
    bytes(rt, &out)?;
    println!(rt;)
}

/// Number, place, distance, count and tries; the last two are 0, and with a refusal the distance too.
fn told_distance(rt: &impl Print, answer: Result<u8, Refusal>) -> io::Result<()> {
    let (number, place) = told(&answer);
    print!(rt; " {number} {place} {} 0 0", answer.unwrap_or(0))
}
