ghost use Rattle.std.specs.Prelude.{◌≡◌};
ghost use Rattle.rely_kernel.specs.Meaning.{flag, quotient, remainder, value};

use rely_num::Op;

fn flag(holds: bool) -> i64
    ensures { result ≡ flag holds }
{
    if holds { 1 } else { 0 }
}

// Toward zero, and 0 by zero.
fn quotient(x: i64, y: i64) -> i64
    ensures { result ≡ quotient x y }
{
    if y == 0 { 0 } else { x.wrapping_div(y) }
}

// With the sign of x, and 0 by zero.
fn remainder(x: i64, y: i64) -> i64
    ensures { result ≡ remainder x y }
{
    if y == 0 { 0 } else { x.wrapping_rem(y) }
}

/// What an operator gives of its two operands.
pub fn operate(op: Op, x: i64, y: i64) -> i64
    ensures { result ≡ value op x y }
{
    match op {
        Op::Add => x.wrapping_add(y),
        Op::Sub => x.wrapping_sub(y),
        Op::Mul => x.wrapping_mul(y),
        Op::Div => quotient(x, y),
        Op::Rem => remainder(x, y),
        Op::Lt => flag(x < y),
        Op::Le => flag(x <= y),
        Op::Gt => flag(x > y),
        Op::Ge => flag(x >= y),
        Op::Eq => flag(x == y),
        Op::Ne => flag(x != y),
        Op::And => x & y,
        Op::Or => x | y,
        Op::Xor => x ^ y,
    }
}
