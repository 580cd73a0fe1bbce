use rely_num::{Op, Span};

/// A name where the source writes it.
#[derive(Clone, Copy)]
pub struct Ident<'a> {
    /// Its bytes, a slice of the source.
    pub text: &'a [u8],
    pub span: Span,
}

/// Which kind of an operator, or which memory, the source chooses.
#[derive(Clone, Copy)]
pub enum Kind<'a> {
    /// None is written: the one named `exact`.
    Plain,
    /// The one of this name.
    Named(Ident<'a>),
    /// Left open by a `?`, which stands there.
    Free(Span),
}

/// An expression.
#[derive(Clone, Copy)]
pub enum Expr<'a> {
    /// A whole number below 2^63.
    Num(u64),
    Name(Ident<'a>),
    /// An array's element, with its index.
    Elem(Ident<'a>, &'a Expr<'a>),
    /// An operator with its place and its kind, and the left and the right operand.
    Bin(Op, Span, Kind<'a>, &'a Expr<'a>, &'a Expr<'a>),
}
