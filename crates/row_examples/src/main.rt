// P1 to P13, R1 to R6 and N1 to N5 (manual, section 5.13) over `affine`, a line for each: the numbers of the row and its own range, or the refusal. `checker/row_cases.py` says
// which row owns which symbol, and makes the same lines.
#![tactic(auto)]

ghost use Rattle.std.specs.Prelude.{IfOk, ℕ, ◌≡◌, ◌≤◌, nat_abs, ◌≤ℤ◌};
ghost use Rattle.affine.specs.declared.Made.{Made};
ghost use Rattle.affine.specs.declared.operands.Symbols.{Symbols};
ghost use Rattle.affine.specs.Limits.{paired, span_limit};
ghost use Rattle.row_examples.specs.Operand.{OperandOf};

use affine::operands::{Operand, Symbols};
use affine::{Made, NoRow};
use std::io;

// The number of a refusal (manual, section 6). By a match: this program is over `affine` alone, which knows no numbers of causes.
fn number(no_row: NoRow) -> u64 {
    match no_row {
        NoRow::SpanPassed => 6,
        NoRow::ZeroInRange => 7,
        NoRow::NoRoot => 12,
    }
}

fn print_numbers(rt: &impl Print, numbers: &[i64]) -> io::Result<()> {
    for v in numbers {
        print!(rt; " {v}")?;
    }
    Ok(())
}

fn print_example(rt: &impl Print, label: &str, made: Result<Made, NoRow>) -> io::Result<()> {
    print!(rt; "{label}")?;
    match made {
        Ok(made) => {
            print!(rt; " {}", made.row.centre)?;
            print_numbers(rt, &made.row.linear)?;
            print_numbers(rt, &made.row.pair)?;
            println!(rt; " {} {}", made.range.low, made.range.high)
        }
        Err(no_row) => println!(rt; " refused {}", number(no_row)),
    }
}

// A constant, which may be an operand of any row.
fn constant(value: i64) -> Result<Made, NoRow>
    ensures { IfOk result (λ made. (own : ℕ) → OperandOf own made) }
{
    affine::steps::constant(value)
}

// The input is row 1, and may be an operand of any later one.
fn input(low: i64, high: i64) -> Result<Made, NoRow>
    requires { (nat_abs low ≤ span_limit) × (nat_abs high ≤ span_limit) × (low ≤ℤ high) }
    ensures { IfOk result (λ made. OperandOf 1 made) }
{
    affine::steps::input(0, low, high)
}

// No `From`: that could ask nothing of the row. What is asked stands in clauses, here and below: it is of this row and of the one to come, and no struct has both.
fn operand(made: Made) -> Operand
    requires { (own : ℕ) × OperandOf own made }
    ensures { result.row ≡ made.row }
{
    Operand {
        row: made.row,
        radius: made.radius,
    }
}

fn product(x: Made, y: Made, symbols: Symbols) -> Result<Made, NoRow>
    requires { OperandOf symbols.own x × OperandOf symbols.own y }
{
    affine::product::multiply(operand(x), operand(y), symbols)
}

fn square(x: Made, symbols: Symbols) -> Result<Made, NoRow>
    requires { OperandOf symbols.own x }
{
    product(x, x, symbols)
}

fn reciprocal(x: Made, symbols: Symbols) -> Result<Made, NoRow>
    requires { OperandOf symbols.own x }
{
    affine::reciprocal::invert(operand(x), x.range, symbols)
}

fn root(x: Made, symbols: Symbols) -> Result<Made, NoRow>
    requires { OperandOf symbols.own x }
{
    affine::root::take_root(x.row, x.range, symbols)
}

// Behind an input come the constants, rows 2 and 3: the product is row 4.
fn product_of_constants(first: i64, second: i64) -> Result<Made, NoRow> {
    let x = constant(first)?;
    let y = constant(second)?;
    product(x, y, Symbols { squares: 0, own: 3 })
}

// Behind an input comes the constant, row 2: what is made of it is row 3.
fn of_constant<F: Fn(Made, Symbols) -> Result<Made, NoRow>>(f: F, value: i64) -> Result<Made, NoRow>
    requires { (x : Made) (symbols : Symbols) → ((own : ℕ) → OperandOf own x) → F.pre f x symbols }
{
    let x = constant(value)?;
    f(x, Symbols { squares: 0, own: 2 })
}

// What is made of an input is row 2. Not one function with `of_constant`: an input has bounds to meet, and owns a symbol.
fn of_input<F: Fn(Made, Symbols) -> Result<Made, NoRow>>(
    f: F,
    low: i64,
    high: i64,
    squares: usize,
) -> Result<Made, NoRow>
    requires callable { (x : Made) (symbols : Symbols) → OperandOf symbols.own x → F.pre f x symbols }
    requires ends { (nat_abs low ≤ span_limit) × (nat_abs high ≤ span_limit) × (low ≤ℤ high) × (squares ≤ paired) }
{
    let x = input(low, high)?;
    f(x, Symbols { squares, own: 1 })
}

fn main(rt: HostRuntime) -> io::Result<()> {
    print_example(&rt, "P1", input(0, 1))?;
    print_example(&rt, "P2", input(-1, 0))?;
    print_example(&rt, "P3", product_of_constants(1, 1))?;
    print_example(&rt, "P4", product_of_constants(-1, 1))?;
    print_example(&rt, "P5", of_constant(reciprocal, 8192))?;
    print_example(&rt, "P6", of_constant(reciprocal, 12288))?;
    print_example(&rt, "P7", of_constant(reciprocal, -12288))?;
    print_example(&rt, "P8", of_input(square, 4096, 8192, 1))?;
    print_example(&rt, "P9", of_input(square, 4096, 8192, 0))?;
    print_example(&rt, "P10", of_input(reciprocal, 4096, 8192, 1))?;
    print_example(&rt, "P11", of_input(reciprocal, 4096, 8192, 0))?;
    print_example(&rt, "P12a", of_input(reciprocal, 1, 2, 0))?;
    print_example(&rt, "P12b", of_input(reciprocal, 1, 3, 0))?;
    print_example(&rt, "P13a", product_of_constants(268435456, 16384))?;
    print_example(&rt, "P13b", product_of_constants(268435456, 16385))?;
    print_example(&rt, "R1", of_constant(root, 4096))?;
    print_example(&rt, "R2", of_constant(root, 2))?;
    print_example(&rt, "R3", of_input(root, 4096, 8192, 1))?;
    print_example(&rt, "R4", of_input(root, 4096, 8192, 0))?;
    print_example(&rt, "R5", of_input(root, 0, 5, 0))?;
    print_example(&rt, "R6", of_input(root, 1, 3, 0))?;
    print_example(&rt, "N1", product_of_constants(2047, 1))?;
    print_example(&rt, "N2", product_of_constants(2048, 1))?;
    print_example(&rt, "N3", product_of_constants(-2048, 1))?;
    print_example(&rt, "N4", product_of_constants(-2049, 1))?;
    print_example(&rt, "N5", of_input(square, 0, 64, 1))
}
