// Numbers: binary64, their patterns of 64 bits, and the four operations (01, "The section that is modelled").
#![tactic(auto)]

ghost use Rattle.std.specs.Prelude.{◌≡◌};
ghost use Rattle.numbers.specs.Number.{apply, pattern_of, number_of};

// The operations of 01's instruction table.
#[derive(Clone, Copy, Debug, PartialEq, Eq)]
pub enum Operation {
    Add,
    Subtract,
    Multiply,
    Divide,
}

// The pattern that a program writes for a not-a-number.
pub const NOT_A_NUMBER: u64 = 0x7FF8_0000_0000_0000;

// The pattern of +infinity: above it, the sign apart, stand the patterns of not-a-numbers alone.
const INFINITY: u64 = 0x7FF0_0000_0000_0000;

const SIGN: u64 = 0x8000_0000_0000_0000;

// R1 plus, minus, times or over the operand.
pub fn computed(operation: Operation, r1: f64, operand: f64) -> f64
    ensures { result ≡ apply operation r1 operand }
{
    match operation {
        Operation::Add => r1 + operand,
        Operation::Subtract => r1 - operand,
        Operation::Multiply => r1 * operand,
        Operation::Divide => r1 / operand,
    }
}

// The pattern of a number.
pub fn pattern_of(number: f64) -> u64
    ensures { result ≡ pattern_of number }
{
    if number.is_nan() {
        return NOT_A_NUMBER;
    }
    number.to_bits()
}

// The number of a pattern.
pub fn number_of(pattern: u64) -> f64
    ensures { result ≡ number_of pattern }
{
    if pattern % SIGN <= INFINITY {
        f64::from_bits(pattern)
    } else {
        f64::NAN
    }
}
