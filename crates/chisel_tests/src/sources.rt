//! A source from its bytes to its tree, which stands in an arena.

use bumpalo::Bump;
use rely_lexer::tokens;
use rely_parser::{ParseFault, parse};
use std::alloc::Global;
use std::test::Fail;

/// The number of functions of a source, or why it is refused.
fn functions(alloc: Global, text: &[u8]) -> Result<Result<usize, ParseFault>, Fail> {
    let toks = tokens(alloc, text)?;
    let arena = Bump::new(alloc);
    match parse(alloc, &arena, text, toks.as_slice()) {
        Ok(unit) => Ok(Ok(unit.functions.len())),
        Err(fault) => Ok(Err(fault)),
    }
}

#[test]
fn two_functions(rt: HostRuntime) -> Result<(), Fail> {
    let text =
        b"fn g(y) claim y >= 0 * R(y) { return y; } fn f(x) claim x >= 0 * R(x) { return x; }";
    assert_eq!(rt; functions(rt.alloc(), text)?, Ok(2));
    assert_eq!(rt;
        functions(rt.alloc(), &text[..76])?,
        Err(ParseFault::Expected(76))
    );
    Ok(())
}
