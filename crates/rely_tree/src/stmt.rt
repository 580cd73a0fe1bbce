use crate::expr::{Expr, Ident};
use rely_num::Span;

/// A statement; the first span is that of its first token.
#[derive(Clone, Copy)]
pub enum Stmt<'a> {
    Set(Span, Ident<'a>, Expr<'a>),
    /// An array, the index and the value.
    SetElem(Span, Ident<'a>, Expr<'a>, Expr<'a>),
    /// The condition, and what is done where it holds and where it doesn't.
    If(Span, Expr<'a>, &'a [Stmt<'a>], &'a [Stmt<'a>]),
    /// The condition, the most turns and the body.
    While(Span, Expr<'a>, u32, &'a [Stmt<'a>]),
    /// The number of turns and the body.
    Repeat(Span, u32, &'a [Stmt<'a>]),
    Return(Span, Expr<'a>),
    /// The variable that is set, the place of the word `call`, the callee and the arguments.
    Call(Span, Ident<'a>, Span, Ident<'a>, &'a [Expr<'a>]),
}
