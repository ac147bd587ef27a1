//! The worked cases of header issue and the header test, a few in each function: what a check takes grows faster than a function's length.
ghost use Rattle.std.specs.Prelude.{◌<◌};

use crate::bytes;
use networks::{A, B, C, D};
use rules::{IssuedHeader, Refusal};
use show::told;
use std::io;

pub(crate) fn run(rt: &impl Print) -> io::Result<()> {
    issues_of_a(rt)?;
    issues_of_b_and_c(rt)?;
    issues_of_d(rt)?;
    lines(rt)?;
    boards(rt)?;
    tests(rt)?;
    Ok(())
}

fn issues_of_a(rt: &impl Print) -> io::Result<()> {
    issued(rt, "A 0 to 2:", &A, 0, 2, 8)?;
    issued(rt, "A 2 to 0:", &A, 2, 0, 8)?;
    issued(rt, "A 0 to 1:", &A, 0, 1, 8)?;
    issues_refused(rt)?;
    issues_lent(rt)?;
    Ok(())
}

fn issues_refused(rt: &impl Print) -> io::Result<()> {
    issued(rt, "A 3 to 3:", &A, 3, 3, 8)?;
    issued(rt, "A 0 to 9:", &A, 0, 9, 8)?;
    Ok(())
}

fn issues_lent(rt: &impl Print) -> io::Result<()> {
    issued(rt, "A 0 to 2, no byte lent:", &A, 0, 2, 0)?;
    issued(rt, "A 0 to 2, seven bytes lent:", &A, 0, 2, 7)?;
    issued(rt, "A 0 to 2, twenty bytes lent:", &A, 0, 2, 20)?;
    Ok(())
}

fn issues_of_b_and_c(rt: &impl Print) -> io::Result<()> {
    issued(rt, "B 0 to 1:", &B, 0, 1, 8)?;
    issued(rt, "B 1 to 0:", &B, 1, 0, 8)?;
    issued(rt, "C 0 to 7:", &C, 0, 7, 8)?;
    issued(rt, "C 0 to 8:", &C, 0, 8, 8)?;
    Ok(())
}

fn issues_of_d(rt: &impl Print) -> io::Result<()> {
    issued(rt, "D 0 to 1:", &D, 0, 1, 8)?;
    let mut d = D;
    d[17] = 3;
    issued(
        rt,
        "D with a second link from switch 2, 0 to 1:",
        &d,
        0,
        1,
        8,
    )?;
    Ok(())
}

fn tests(rt: &impl Print) -> io::Result<()> {
    tests_of_three(rt)?;
    tests_of_lengths(rt)?;
    tests_of_none_and_many(rt)?;
    tests_refused(rt)?;
    tests_of_b(rt)?;
    tested(rt, "test C 0 to 8, 80:", &C, 0, 8, b"\x80")?;
    Ok(())
}

fn tests_of_three(rt: &impl Print) -> io::Result<()> {
    tested(rt, "test A 0 to 2, 10 02 01:", &A, 0, 2, b"\x10\x02\x01")?;
    tested(rt, "test A 0 to 2, 20 04 01:", &A, 0, 2, b"\x20\x04\x01")?;
    tested(rt, "test A 0 to 2, 30 02 01:", &A, 0, 2, b"\x30\x02\x01")?;
    Ok(())
}

fn tests_of_lengths(rt: &impl Print) -> io::Result<()> {
    tested(rt, "test A 0 to 2, 10 02:", &A, 0, 2, b"\x10\x02")?;
    tested(
        rt,
        "test A 0 to 2, 10 02 01 01:",
        &A,
        0,
        2,
        b"\x10\x02\x01\x01",
    )?;
    tested(rt, "test A 0 to 2, 10 00 01:", &A, 0, 2, b"\x10\x00\x01")?;
    Ok(())
}

fn tests_of_none_and_many(rt: &impl Print) -> io::Result<()> {
    tested(rt, "test A 0 to 2, no word:", &A, 0, 2, b"")?;
    let long = [1u8; 300];
    tested(rt, "test A 0 to 2, 300 words:", &A, 0, 2, &long)?;
    Ok(())
}

fn tests_refused(rt: &impl Print) -> io::Result<()> {
    tested(rt, "test A 3 to 3, 01:", &A, 3, 3, b"\x01")?;
    tested(rt, "test B 1 to 0, 01:", &B, 1, 0, b"\x01")?;
    Ok(())
}

fn tests_of_b(rt: &impl Print) -> io::Result<()> {
    tested(rt, "test B 0 to 1, 10 07 01:", &B, 0, 1, b"\x10\x07\x01")?;
    tested(rt, "test B 0 to 1, 30 04 01:", &B, 0, 1, b"\x30\x04\x01")?;
    tested(rt, "test B 0 to 1, 30 06 01:", &B, 0, 1, b"\x30\x06\x01")?;
    Ok(())
}

/// A line of switches with 1, 4, 2, 4, 2 and 5 links between neighbours: 65,536 tries; and with one switch more in front 65,537.
fn lines(rt: &impl Print) -> io::Result<()> {
    let mut t = [65535u16; 64];
    t[0] = 1000;
    t[1] = 1;
    t[8] = 2;
    t[9] = 2;
    t[10] = 2;
    t[11] = 2;
    t[16] = 3;
    t[17] = 3;
    t[24] = 4;
    t[25] = 4;
    t[26] = 4;
    t[27] = 4;
    t[32] = 5;
    t[33] = 5;
    t[40] = 6;
    t[41] = 6;
    t[42] = 6;
    t[43] = 6;
    t[44] = 6;
    t[48] = 1001;
    issued(rt, "a line of 1 4 2 4 2 5 links:", &t[..56], 0, 1, 8)?;
    t[56] = 1002;
    t[57] = 0;
    issued(rt, "the same with one switch in front:", &t, 2, 1, 8)?;
    Ok(())
}

/// A network of 32 nodes: two boards of eight switches, four cables between switch 4 + i and switch 8 + i.
fn boards(rt: &impl Print) -> io::Result<()> {
    let t = two_boards();
    issued(rt, "two boards, 4 to 30:", &t, 4, 30, 8)?;
    issued(rt, "two boards, 4 to 7:", &t, 4, 7, 8)?;
    issued(rt, "two boards, 0 to 15:", &t, 0, 15, 8)?;
    issued(rt, "two boards, 31 to 0:", &t, 31, 0, 8)?;
    Ok(())
}

fn two_boards() -> [u16; 128] {
    let mut t = [0u16; 128];
    for i in 0..128u16 {
        t[i as usize] = cable(i / 8, i % 8);
    }
    t
}

/// What stands at port p of switch s there: processors 0 to 15 on switches 0 to 3, processors 16 to 31 on switches 12 to 15.
fn cable(s: u16, p: u16) -> u16
    requires { (s < 16) × (p < 8) }
{
    if s < 4 {
        if p < 4 {
            return 1000 + 4 * s + p;
        }
        return p;
    }
    if s < 8 {
        if p < 4 {
            return p;
        }
        return s + 4;
    }
    if s < 12 {
        if p < 4 {
            return s - 4;
        }
        return 8 + p;
    }
    if p < 4 {
        return 8 + p;
    }
    964 + 4 * s + p
}

/// Twenty bytes 7, of which `lent` are lent. A case is its parameters here and below: a struct of them would be named at every line, and is no
/// plainer.
fn issued(
    rt: &impl Print,
    what: &str,
    table: &[u16],
    source: u64,
    target: u64,
    lent: usize,
) -> io::Result<()> {
    let mut out = [7u8; 20];
    print!(rt; "{what}")?;
    told_header(
        rt,
        header::issue(table, source, target, &mut out[..lent.min(20)]),
    )?;
    print!(rt; " :")?;
    bytes(rt, &out[..10])?;
    println!(rt;)
}

/// Number, place, distance, count and tries; with a refusal the last three are 0.
fn told_header(rt: &impl Print, answer: Result<IssuedHeader, Refusal>) -> io::Result<()> {
    let (number, place) = told(&answer);
    print!(rt; " {number} {place}")?;
    match answer {
        Ok(header) => print!(rt; " {} {} {}", header.distance, header.count, header.tries),
        Err(_) => print!(rt; " 0 0 0"),
    }
}

fn tested(
    rt: &impl Print,
    what: &str,
    table: &[u16],
    source: u64,
    target: u64,
    words: &[u8],
) -> io::Result<()> {
    let passes = header::test(table, source, target, words);
    let (number, place) = told(&passes);
    print!(rt; "{what} {number} {place}")?;
    match passes {
        Ok(true) => println!(rt; " 0 0 0 yes"),
        Ok(false) => println!(rt; " 0 0 0 no"),
        Err(_) => println!(rt; " 0 0 0 neither"),
    }
}
