ghost use Rattle.std.specs.Prelude.{Option};
ghost use Rattle.wh_cursor.specs.Gives.{Reads};
ghost use Rattle.wh_cursor.specs.Steps.{Reader};
ghost use Rattle.wh_option_parse.specs.Nests.{ReadsOption};
ghost use Rattle.wh_option_parse.specs.Read as spec;

use std::alloc::Global;
use wh_cursor::{ParseFault, Words};

/// Takes options in any order, with those so far to begin with. Each turn takes one by `option`, or
/// finds none: whatever that function reads, this reads as many of it.
pub fn options<P: Copy + Drop, F: Fn(Global, &mut Words<'_>, P) -> Result<Option<P>, ParseFault>>(
    alloc: Global,
    words: &mut Words<'_>,
    first: P,
    turns: usize,
    option: &F,
) -> Result<P, ParseFault>
    requires { F.IsAlwaysCallable option.now }
    ensures { (reader : P → Reader (Option P)) → ReadsOption reader (F.post option.now)
        → Reads (spec.options_from reader turns first words.old) result words.new }
{
    let mut parts = first;
    for _turn in 0..turns {
        let Some(more) = option(alloc, words, parts)? else {
            return Ok(parts);
        };
        parts = more;
    }
    Err(ParseFault::SyntaxError)
}
