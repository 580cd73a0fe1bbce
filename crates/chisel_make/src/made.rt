//! A source with open places, the hardware that it is to run on, and one sample.
ghost use Rattle.std.specs.Prelude.{◌≡◌, ◌≤◌, ◌++◌, IfOk};
ghost use Rattle.chisel_make.specs.Draws.{after};
ghost use Rattle.chisel_make.specs.Made.{IsMade, byte, bytes, inputs, source, statement, statements};

use crate::draws::Draws;
use itoa::Buffer;
use rely_num::List;
use std::alloc::{AllocError, Global};

/// The hardware of each made problem: sums and products of three kinds, comparisons of two, and two memories.
const HARDWARE: &[u8] = b"{\"base\":\"0.99999\",\"operators\":[
{\"op\":\"+\",\"kinds\":[{\"name\":\"exact\",\"right\":\"1\",\"energy\":100},
{\"name\":\"mild\",\"right\":\"0.9999\",\"energy\":60},
{\"name\":\"wild\",\"right\":\"0.999\",\"energy\":20}]},
{\"op\":\"*\",\"kinds\":[{\"name\":\"exact\",\"right\":\"1\",\"energy\":300},
{\"name\":\"mild\",\"right\":\"0.9999\",\"energy\":150},
{\"name\":\"wild\",\"right\":\"0.999\",\"energy\":60}]},
{\"op\":\"<\",\"kinds\":[{\"name\":\"exact\",\"right\":\"1\",\"energy\":50},
{\"name\":\"mild\",\"right\":\"0.9999\",\"energy\":30}]}],
\"memories\":[{\"name\":\"exact\",\"read\":\"1\",\"write\":\"1\",
\"read_energy\":4,\"write_energy\":6,\"hold\":3},
{\"name\":\"ram\",\"read\":\"0.99999\",\"write\":\"0.99999\",
\"read_energy\":2,\"write_energy\":3,\"hold\":1}]}
";

/// The texts of a problem: a source whose function is `made`, a hardware file and sample inputs.
#[derive(Debug, Drop)]
pub struct Made {
    pub source: List<u8>,
    pub hardware: List<u8>,
    pub inputs: List<u8>,
}

/// The statement of a draw: two bits for its form, and four for its number.
fn statement(alloc: Global, draw: u64) -> Result<Vec<u8>, AllocError>
    ensures { IfOk result (λ v. v.items ≡ statement draw) }
{
    let number = draw / 4 % 16;
    let mut buffer = Buffer::new();
    let (front, shown, back): (&[u8], &[u8], &[u8]) = match draw % 4 {
        0 => (b"  s = s +? a[", buffer.format(number).as_bytes(), b"];\n"),
        1 => (b"  s = s *? b;\n", b"", b""),
        2 => (
            b"  if (s <? ",
            buffer.format(number).as_bytes(),
            b") { s = s + b; }\n",
        ),
        _ => (
            b"  repeat ",
            buffer.format(number + 1).as_bytes(),
            b" { s = s +? b; }\n",
        ),
    };
    let mut text = Vec::from_slice(alloc, front)?;
    text.extend_from_slice(shown)?;
    text.extend_from_slice(back)?;
    Ok(text)
}

/// So many statements, each of one draw.
#[tactic(auto, using(crate::proofs::Steps::statements_none, crate::proofs::Steps::statements_step, crate::proofs::Steps::after_none, crate::proofs::Steps::after_step))]
fn statements(alloc: Global, size: u32, draws: &mut Draws) -> Result<Vec<u8>, AllocError>
    ensures text { IfOk result (λ v. v.items ≡ statements size draws.old.state) }
    ensures draws { IfOk result (λ _. draws.new.state ≡ after size draws.old.state) }
{
    let mut text = Vec::new(alloc);
    let mut left = size;
    while left > 0 {
        left -= 1;
        let line = statement(alloc, draws.draw())?;
        text.extend_from_slice(line.as_slice())?;
    }
    Ok(text)
}

fn source(alloc: Global, size: u32, draws: &mut Draws) -> Result<Vec<u8>, AllocError>
    ensures text { IfOk result (λ v. v.items ≡ source size draws.old.state) }
    ensures draws { IfOk result (λ _. draws.new.state ≡ after size draws.old.state) }
{
    let statements = statements(alloc, size, draws)?;
    let head = b"fn made(a[16] in ?, b)\nclaim result >= 0.5 * R(a, b)\n{\n  var s;\n";
    let mut text = Vec::from_slice(alloc, head)?;
    text.extend_from_slice(statements.as_slice())?;
    text.extend_from_slice(b"  return s;\n}\n")?;
    Ok(text)
}

/// Adds the number of a draw, from 0 to 255.
fn push_byte(text: &mut Vec<u8>, draw: u64) -> Result<(), AllocError>
    ensures { IfOk result (λ _. text.new.items ≡ text.old.items ++ byte draw) }
{
    let mut buffer = Buffer::new();
    text.extend_from_slice(buffer.format(draw % 256).as_bytes())?;
    Ok(())
}

/// So many more numbers of a list.
#[tactic(auto, using(crate::proofs::Steps::bytes_none, crate::proofs::Steps::bytes_step, crate::proofs::Steps::after_none, crate::proofs::Steps::after_step))]
fn bytes(alloc: Global, count: u32, draws: &mut Draws) -> Result<Vec<u8>, AllocError>
    ensures text { IfOk result (λ v. v.items ≡ bytes count draws.old.state) }
    ensures draws { IfOk result (λ _. draws.new.state ≡ after count draws.old.state) }
{
    let mut text = Vec::new(alloc);
    let mut left = count;
    while left > 0 {
        left -= 1;
        text.extend_from_slice(b",")?;
        push_byte(&mut text, draws.draw())?;
    }
    Ok(text)
}

#[tactic(auto, using(crate::proofs::Steps::after_sixteen))]
fn inputs(alloc: Global, draws: &mut Draws) -> Result<Vec<u8>, AllocError>
    ensures { IfOk result (λ v. v.items ≡ inputs draws.old.state) }
{
    let mut text = Vec::from_slice(alloc, b"{\"samples\":[{\"a\":[")?;
    push_byte(&mut text, draws.draw())?;
    let more = bytes(alloc, 15, draws)?;
    text.extend_from_slice(more.as_slice())?;
    text.extend_from_slice(b"],\"b\":")?;
    push_byte(&mut text, draws.draw())?;
    text.extend_from_slice(b"}]}\n")?;
    Ok(text)
}

/// The problem of that size, with one statement a unit of size, which the number seeds.
///
/// # Errors
///
/// Memory was refused.
pub fn make(alloc: Global, size: u32, number: u64) -> Result<Made, AllocError>
    requires least { 1 ≤ size }
    requires most { size ≤ 100 }
    ensures { IfOk result (IsMade size number) }
{
    let mut draws = Draws { state: number };
    let source = source(alloc, size, &mut draws)?;
    let hardware = Vec::from_slice(alloc, HARDWARE)?;
    let inputs = inputs(alloc, &mut draws)?;
    Ok(Made {
        source: List::from_vec(source),
        hardware: List::from_vec(hardware),
        inputs: List::from_vec(inputs),
    })
}
