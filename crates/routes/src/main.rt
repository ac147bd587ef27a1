//! The program `routes`: reads wiring fields and pairs from standard input and prints a header for each pair.
#![tactic(auto)]

ghost use Rattle.std.specs.Prelude.{◌≡◌, ◌≤◌, length};

use std::io::Read;

/// One byte more than an input may have is read, to know one that is too long. A write that fails ends the output.
fn main(rt: HostRuntime) {
    let mut input = zeros::<65_537>();
    let n = read_full(&mut rt.stdin(), &mut input);
    let mut out = zeros::<524_288>();
    let m = report::report(&input[..n], &mut out);
    let _written = rt.write_all(&out[..m]);
}

/// Its length is a parameter, so that no proof counts to it: with the arrays written in `main` the check runs out of stack.
fn zeros<const N: usize>() -> [u8; N]
    ensures { length result ≡ N }
{
    [0; N]
}

/// Reads until the buffer is full or the input ends, and gives how many bytes it put there. A read that fails ends the input.
fn read_full(reader: &mut impl Read, buffer: &mut [u8]) -> usize
    ensures { result ≤ length buffer.new }
{
    // It counts the bytes that each read gave, and no index; std's `read_to_end` needs a heap.
    let mut at = 0;
    while at < buffer.len() {
        match reader.read(&mut buffer[at..]) {
            Ok(0) | Err(_) => break,
            Ok(n) => at += n,
        }
    }
    at
}
