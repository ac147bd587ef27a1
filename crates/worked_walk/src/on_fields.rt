//! The worked cases of the field reader, a few in each function. A case is its parameters, as in `worked`: a struct of them would be named at
//! every line.
use rules::{ReadFields, Refusal};
use show::told;
use std::io;

pub(crate) fn run(rt: &impl Print) -> io::Result<()> {
    read(rt, "no field", &[], 512)?;
    read(rt, "one byte 0", &[0], 512)?;
    let f = two_rows_and_two_pairs();
    whole(rt, f)?;
    cut(rt, f)?;
    damaged_pairs(rt, f)?;
    damaged_tags(rt, f)?;
    damaged_lengths(rt, f)?;
    many(rt)?;
    Ok(())
}

fn two_rows_and_two_pairs() -> [u8; 52] {
    let mut f = [0; 52];
    f[..38].copy_from_slice(&two_rows());
    f[38..].copy_from_slice(&two_pairs());
    f
}

fn two_rows() -> [u8; 38] {
    let mut f = [0; 38];
    f[..19].copy_from_slice(&row(1000));
    f[19..].copy_from_slice(&row(3));
    f
}

fn two_pairs() -> [u8; 14] {
    let mut f = [0; 14];
    f[..7].copy_from_slice(&pair(0, 511));
    f[7..].copy_from_slice(&pair(258, 3));
    f
}

fn whole(rt: &impl Print, f: [u8; 52]) -> io::Result<()> {
    read(rt, "two rows and two pairs", &f, 512)?;
    read(rt, "the same into 600 numbers", &f, 600)?;
    read(rt, "the same into 511 numbers", &f, 511)?;
    Ok(())
}

/// The first is read into a table that is too short as well: 12 comes before 8.
fn damaged_pairs(rt: &impl Print, mut f: [u8; 52]) -> io::Result<()> {
    f[51] = 1;
    let mut longer = [0; 53];
    longer[..52].copy_from_slice(&f);
    read(rt, "a longer last pair", &longer, 511)?;
    let mut row_behind = [0; 71];
    row_behind[..52].copy_from_slice(&f);
    row_behind[52] = 1;
    read(rt, "a tag 1 after a tag 2", &row_behind, 512)?;
    Ok(())
}

fn damaged_tags(rt: &impl Print, mut f: [u8; 52]) -> io::Result<()> {
    f[0] = 0;
    read(rt, "tag 0", &f, 512)?;
    f[0] = 255;
    read(rt, "tag 255", &f, 512)?;
    Ok(())
}

/// The last is read into a table that is too short as well.
fn damaged_lengths(rt: &impl Print, mut f: [u8; 52]) -> io::Result<()> {
    f[2] = 15;
    read(rt, "length 15", &f, 512)?;
    f[2] = 17;
    read(rt, "length 17", &f, 512)?;
    f[2] = 16;
    f[1] = 1;
    read(rt, "length 272", &f, 512)?;
    f[1] = 0;
    f[40] = 5;
    read(rt, "a pair of length 5", &f, 511)?;
    Ok(())
}

/// The fields cut at each of their bytes.
fn cut(rt: &impl Print, f: [u8; 52]) -> io::Result<()> {
    for n in 0..=52 {
        cut_short(rt, &f[..n])?;
    }
    Ok(())
}

fn cut_short(rt: &impl Print, fields: &[u8]) -> io::Result<()> {
    let mut t = [9u16; 512];
    read_of(rt, fields::read(fields, &mut t))?;
    println!(rt; " {}", t[0])
}

/// 64 and 65 fields of tag 1.
fn many(rt: &impl Print) -> io::Result<()> {
    let f = rows();
    read_front(rt, "64 rows", &f, 1216)?;
    read(rt, "65 rows", &f, 512)?;
    read_front(rt, "64 rows and a cut one", &f, 1217)?;
    Ok(())
}

// The end comes beside the rows: as `&f[..1216]`, of a value or of a parameter, its bound didn't close.
fn read_front(rt: &impl Print, what: &str, rows: &[u8], len: usize) -> io::Result<()> {
    read(rt, what, &rows[..len.min(rows.len())], 512)
}

/// 65 rows of 65535.
fn rows() -> [u8; 1235] {
    let mut f = [0; 1235];
    for k in 0..65 {
        f[19 * k..19 * k + 19].copy_from_slice(&row(65535));
    }
    f
}

/// A row of eight entries that begin with x and rise, up to 65535.
fn row(x: u16) -> [u8; 19] {
    let mut f = [0; 19];
    f[..3].copy_from_slice(&[1, 0, 16]);
    for p in 0..8u16 {
        let at = 3 + 2 * p as usize;
        f[at..at + 2].copy_from_slice(&x.saturating_add(p).to_be_bytes());
    }
    f
}

fn pair(source: u16, target: u16) -> [u8; 7] {
    let mut f = [2, 0, 4, 0, 0, 0, 0];
    f[3..5].copy_from_slice(&source.to_be_bytes());
    f[5..].copy_from_slice(&target.to_be_bytes());
    f
}

/// The fields read into the first `lent` of 600 numbers 9.
fn read(rt: &impl Print, what: &str, fields: &[u8], lent: usize) -> io::Result<()> {
    let mut t = [9u16; 600];
    let answer = fields::read(fields, &mut t[..lent.min(600)]);
    // A refusal is told the pair at offset 0, an offset like any other, since the row of numbers has 0 there.
    let ends = fields::pair(fields, answer.map_or(0, |read| read.pairs));
    print!(rt; "{what}:")?;
    read_of(rt, answer)?;
    entries(rt, t)?;
    println!(rt; " {} {}", ends.source, ends.target)
}

/// Number, place, switches and the offset of the first pair.
fn read_of(rt: &impl Print, answer: Result<ReadFields, Refusal>) -> io::Result<()> {
    let (number, place) = told(&answer);
    print!(rt; " {number} {place}")?;
    match answer {
        Ok(read) => print!(rt; " {} {}", read.switches, read.pairs),
        Err(_) => print!(rt; " 0 0"),
    }
}

fn entries(rt: &impl Print, t: [u16; 600]) -> io::Result<()> {
    print!(rt; " : {} {} {} {}", t[0], t[7], t[8], t[15])?;
    print!(rt; " {} {} {} {} :", t[16], t[511], t[512], t[599])
}
