// Runs the divisions, the absolute value and the root of `integer` on their edges, one line each. `checker/integer_edges.py` makes the same lines.
#![tactic(auto)]

use integer::division::{
    ceiling_quotient, floor_quotient, floor_quotient_4096, floor_remainder, nearest_quotient_4096,
    nearest_remainder_4096,
};
use integer::magnitude::absolute;
use integer::root::root;
use std::io;

const DIVIDENDS: [i64; 13] = [
    0,
    1,
    -1,
    4095,
    -4095,
    4096,
    -4096,
    4097,
    -4097,
    1152921504606846976,
    -1152921504606846976,
    i64::MAX,
    i64::MIN,
];

// Exact halves of 4096, on both sides of 0: the least, the next, one of the size of a total, and the greatest.
const HALVES: [i64; 8] = [
    2048,
    -2048,
    6144,
    -6144,
    1152921504606849024,
    -1152921504606849024,
    9223372036854773760,
    -9223372036854773760,
];

const DIVISORS: [i64; 10] = [
    1,
    -1,
    3,
    -3,
    4096,
    -4096,
    1073741824,
    -1073741824,
    i64::MAX,
    i64::MIN,
];

const NATURALS: [u64; 8] = [
    1,
    3,
    4095,
    4096,
    1073741824,
    1152921504606846976,
    u64::MAX - 1,
    u64::MAX,
];

// Squares and their neighbours, 2^44 where the search gets wider and the greatest square among them, and the greatest number.
const RADICANDS: [u64; 21] = [
    0,
    1,
    2,
    3,
    4,
    8,
    9,
    10,
    16777215,
    16777216,
    16777217,
    4398046511103,
    4398046511104,
    4398046511105,
    17592186044415,
    17592186044416,
    17592186044417,
    18446744065119617024,
    18446744065119617025,
    18446744065119617026,
    u64::MAX,
];

// The least number over -1 has no quotient in range, and its line says so. No divisor is 0: a loop over them does not know it, and so it is tested.
fn print_floor(rt: &impl Print, a: i64, d: i64) -> io::Result<()> {
    if d == 0 {
        return Ok(());
    }
    print!(rt; "floor {a} {d} ")?;
    if a == i64::MIN && d == -1 {
        print!(rt; "none")?;
    } else {
        print!(rt; "{}", floor_quotient(a, d))?;
    }
    println!(rt; " {}", floor_remainder(a, d))
}

fn print_by_4096(rt: &impl Print, a: i64) -> io::Result<()> {
    let down = floor_quotient_4096(a);
    let nearest = nearest_quotient_4096(a);
    println!(rt;
        "4096 {a} {down} {nearest} {} {}",
        nearest_remainder_4096(a),
        absolute(a)
    )
}

// No divisor is 0, and it is tested as for `print_floor`.
fn print_ceiling(rt: &impl Print, n: u64, d: u64) -> io::Result<()> {
    if d == 0 {
        return Ok(());
    }
    println!(rt; "ceiling {n} {d} {}", ceiling_quotient(n, d))
}

// Not one function with `print_ceilings`: those are of other numbers and another division, and have no line for each dividend.
fn print_floors(rt: &impl Print) -> io::Result<()> {
    for a in DIVIDENDS {
        for d in DIVISORS {
            print_floor(rt, a, d)?;
        }
        print_by_4096(rt, a)?;
    }
    Ok(())
}

// Each exact half, and its neighbours.
fn print_halves(rt: &impl Print) -> io::Result<()> {
    for h in HALVES {
        for a in h - 1..=h + 1 {
            print_by_4096(rt, a)?;
        }
    }
    Ok(())
}

fn print_ceilings(rt: &impl Print) -> io::Result<()> {
    for d in NATURALS {
        print_ceiling(rt, 0, d)?;
        for n in NATURALS {
            print_ceiling(rt, n, d)?;
        }
    }
    Ok(())
}

fn print_roots(rt: &impl Print) -> io::Result<()> {
    for n in RADICANDS {
        println!(rt; "root {n} {}", root(n))?;
    }
    Ok(())
}

fn main(rt: HostRuntime) -> io::Result<()> {
    print_floors(&rt)?;
    print_halves(&rt)?;
    print_ceilings(&rt)?;
    print_roots(&rt)
}
