//! The worked cases of the walk, a few in each function. A case is its parameters, as in `worked`.
use networks::{A, B};
use show::told;
use std::io;

pub(crate) fn run(rt: &impl Print) -> io::Result<()> {
    endings(rt)?;
    delivered(rt)?;
    at_a_switch(rt)?;
    refusals(rt)?;
    no_choice(rt)?;
    on_b(rt)?;
    self_link(rt)?;
    all_choices(rt)?;
    Ok(())
}

fn endings(rt: &impl Print) -> io::Result<()> {
    walked(
        rt,
        "A from 0, 30 02 01 with 3 0 0:",
        &A,
        0,
        b"\x30\x02\x01",
        b"\x03\x00\x00",
    )?;
    walked(
        rt,
        "A from 0, 02 01 with 0 0:",
        &A,
        0,
        b"\x02\x01",
        b"\x00\x00",
    )?;
    walked(
        rt,
        "A from 0, 10 02 with 0 0:",
        &A,
        0,
        b"\x10\x02",
        b"\x00\x00",
    )?;
    Ok(())
}

fn delivered(rt: &impl Print) -> io::Result<()> {
    walked(
        rt,
        "A from 0, 10 02 01 with 9 9 9 9:",
        &A,
        0,
        b"\x10\x02\x01",
        b"\x09\x09\x09\x09",
    )?;
    walked(
        rt,
        "A from 2, 30 01 01 with 0 5 200:",
        &A,
        2,
        b"\x30\x01\x01",
        b"\x00\x05\xc8",
    )?;
    Ok(())
}

fn at_a_switch(rt: &impl Print) -> io::Result<()> {
    walked(rt, "A from 0, no word:", &A, 0, b"", b"")?;
    walked(
        rt,
        "A from 0, 10 00 01 with 0 0 0:",
        &A,
        0,
        b"\x10\x00\x01",
        b"\x00\x00\x00",
    )?;
    walked(rt, "A from 0, 00:", &A, 0, b"\x00", b"\x00")?;
    walked(rt, "A from 0, 04:", &A, 0, b"\x04", b"\x00")?;
    Ok(())
}

fn refusals(rt: &impl Print) -> io::Result<()> {
    let nine = b"\x10\x02\x01\x01\x01\x01\x01\x01\x01";
    walked(rt, "A from 0, nine words:", &A, 0, nine, nine)?;
    walked(
        rt,
        "A from 0, three words with two choices:",
        &A,
        0,
        b"\x10\x02\x01",
        b"\x00\x00",
    )?;
    Ok(())
}

fn no_choice(rt: &impl Print) -> io::Result<()> {
    let nine = b"\x10\x02\x01\x01\x01\x01\x01\x01\x01";
    walked(rt, "A from 0, nine words with no choice:", &A, 0, nine, b"")?;
    walked(rt, "A from 9, nine words with no choice:", &A, 9, nine, b"")?;
    walked(rt, "of length 7 from 9:", &A[..7], 9, b"\x10", b"")?;
    Ok(())
}

fn on_b(rt: &impl Print) -> io::Result<()> {
    walked(
        rt,
        "B from 0, 10 07 01 with 0 1 0:",
        &B,
        0,
        b"\x10\x07\x01",
        b"\x00\x01\x00",
    )?;
    walked(
        rt,
        "B from 0, 20 04 01 with 1 1 1:",
        &B,
        0,
        b"\x20\x04\x01",
        b"\x01\x01\x01",
    )?;
    Ok(())
}

fn self_link(rt: &impl Print) -> io::Result<()> {
    let mut t = A;
    t[6] = 0;
    walked(
        rt,
        "A with a self link, 40 40 40 02 with 0 0 0 0:",
        &t,
        0,
        b"\x40\x40\x40\x02",
        b"\x00\x00\x00\x00",
    )?;
    walked(
        rt,
        "A with a self link, 40 40 with 0 0:",
        &t,
        0,
        b"\x40\x40",
        b"\x00\x00",
    )?;
    t[31] = 1600;
    walked(rt, "A with a bad entry:", &t, 0, b"\x01", b"\x00")?;
    Ok(())
}

/// A word of all ones at a switch whose ports have eight processors: each choice byte takes its port.
fn all_choices(rt: &impl Print) -> io::Result<()> {
    for c in 0..=255u8 {
        choice(rt, c)?;
    }
    println!(rt;)
}

fn choice(rt: &impl Print, c: u8) -> io::Result<()> {
    let t: [u16; 8] = [1000, 1001, 1002, 1003, 1004, 1005, 1006, 1007];
    // No case is refused; `map_or` stays since a refusal would print 0, as the program did when an answer was a row of numbers.
    let at = walk::walk(&t, 0, b"\xff", &[c]).map_or(0, |end| end.at);
    print!(rt; " {at}")
}

fn walked(
    rt: &impl Print,
    what: &str,
    table: &[u16],
    source: u64,
    words: &[u8],
    choices: &[u8],
) -> io::Result<()> {
    let answer = walk::walk(table, source, words, choices);
    let (number, place) = told(&answer);
    print!(rt; "{what} {number} {place}")?;
    match answer {
        Ok(end) => println!(rt; " {} {} {} {}", end.ending, end.at, end.hops, end.left),
        Err(_) => println!(rt; " NONE 0 0 0"),
    }
}
