// Prints n and the exponential by n alone, a pair to a line: at n that document 01 names, at 6120 and 1552, where e(n) is farthest above
// and below the exact fraction, where n is refused, and at a spread of n.
// The file stdout beside src/ is written by exact.py, another program.
#![tactic(auto)]

use std::io;
use std::io::{BufWriter, Write};

const NAMED: [u64; 12] = [
    0,
    1,
    513,
    1552,
    6120,
    46225,
    92450,
    1370625,
    5534960,
    5534961,
    9223372036854775808,
    18446744073709551615,
];

fn main(rt: HostRuntime) -> io::Result<()> {
    let mut out = BufWriter::new(rt.alloc(), io::writer(&rt))?;
    // The spread is of the multiples of 9973 below the largest n. It is made by products: behind a `chain` a `step_by` goes through each
    // number between.
    for n in NAMED
        .into_iter()
        .chain((1..555).map(|i: u32| u64::from(i) * 9973))
    {
        let e = exponential::exp_or_refusal(n);
        writeln!(out, "{n} {e}")?;
    }
    out.flush()
}
