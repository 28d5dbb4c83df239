//! The rules take the reader of what stands inside as a parameter: so each is proved by itself.

ghost use Rattle.wh_cursor.specs.Gives.{Reads};
ghost use Rattle.wh_expr_parse.specs.Read as spec;
ghost use Rattle.wh_expr_parse.specs.Nests.{Nests};

use crate::primaries::rows;
use crate::tokens::Tokens;
use sqlite_items::Boxed;
use std::alloc::Global;
use wh_ast::Expr;
use wh_cursor::ParseFault;

/// What may stand inside an expression.
#[derive(Clone, Copy)]
pub enum Level {
    /// Inside parentheses.
    Whole,
    /// Behind NOT.
    Negation,
    /// Behind a minus sign.
    Unary,
    /// The star of `COUNT ( * )`.
    Rows,
}

#[derive(Drop)]
pub struct Grammar<F> {
    pub alloc: Global,
    /// How many parentheses, NOT and minus signs may still stand inside one another.
    pub depth: usize,
    pub inner: F,
}

impl<F: Fn(Global, &mut Tokens<'_>, usize, Level) -> Result<Boxed<Expr>, ParseFault>> Grammar<F> {
    pub fn inner(&self, tokens: &mut Tokens<'_>, level: Level) -> Result<Boxed<Expr>, ParseFault>
        requires { Nests self.now.depth (F.pre self.now.inner) (F.post self.now.inner) }
        ensures { Reads (spec.nested self.now.depth level tokens.old) result tokens.new }
    {
        (self.inner)(self.alloc, tokens, self.depth, level)
    }

    fn level(&self, tokens: &mut Tokens<'_>, level: Level) -> Result<Boxed<Expr>, ParseFault>
        requires { Nests self.now.depth (F.pre self.now.inner) (F.post self.now.inner) }
        ensures { Reads
            (spec.level (spec.nested self.now.depth) level tokens.old) result tokens.new }
    {
        match level {
            Level::Whole => self.whole(tokens),
            Level::Negation => self.negation(tokens),
            Level::Unary => self.unary(tokens),
            Level::Rows => rows(self.alloc, tokens),
        }
    }
}

/// What stands inside, with at most `depth` inside one another.
fn nested(
    alloc: Global,
    tokens: &mut Tokens<'_>,
    depth: usize,
    level: Level,
) -> Result<Boxed<Expr>, ParseFault>
    ensures { Reads (spec.nested depth level tokens.old) result tokens.new }
{
    if depth == 0 {
        return Err(ParseFault::SyntaxError);
    }
    Grammar {
        alloc,
        depth: depth - 1,
        inner: nested,
    }
    .level(tokens, level)
}

pub fn whole(
    alloc: Global,
    tokens: &mut Tokens<'_>,
    depth: usize,
) -> Result<Boxed<Expr>, ParseFault>
    ensures { Reads (spec.whole (spec.nested depth) tokens.old) result tokens.new }
{
    Grammar {
        alloc,
        depth,
        inner: nested,
    }
    .whole(tokens)
}
