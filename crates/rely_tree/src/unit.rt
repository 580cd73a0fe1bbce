use crate::expr::{Ident, Kind};
use crate::stmt::Stmt;
use rely_num::Atto;

/// The declaration of a variable.
#[derive(Clone, Copy)]
pub struct Decl<'a> {
    pub name: Ident<'a>,
    /// The number of an array's elements; none for a scalar.
    pub length: Option<u32>,
    /// The memory that the variable lives in.
    pub memory: Kind<'a>,
}

/// A claim: the target is right at least as often as the bound times the
/// probability that all variables that it needs are right.
#[derive(Clone, Copy)]
pub struct Said<'a> {
    /// A variable; none is the result.
    pub target: Option<Ident<'a>>,
    pub bound: Atto,
    pub needs: &'a [Ident<'a>],
}

/// A function. Its body ends with its one `return`.
#[derive(Clone, Copy)]
pub struct Func<'a> {
    pub name: Ident<'a>,
    pub params: &'a [Decl<'a>],
    pub locals: &'a [Decl<'a>],
    pub claims: &'a [Said<'a>],
    pub body: &'a [Stmt<'a>],
}

/// A whole source.
#[derive(Clone, Copy)]
pub struct Unit<'a> {
    pub functions: &'a [Func<'a>],
}
