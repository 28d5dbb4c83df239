ghost use Rattle.std.specs.Prelude.{◌≡◌, OnErr};
ghost use Rattle.wh_cursor.specs.Gives.{Reads};
ghost use Rattle.wh_cursor.specs.Lists as spec;
ghost use Rattle.wh_cursor.specs.Lists.{ReadsItem};
ghost use Rattle.wh_cursor.specs.Steps.{Reader};

use crate::{ParseFault, TokenClass, Words};
use sqlite_items::Items;
use std::alloc::Global;

/// Takes one item or more, with commas between them. `item` takes one, to that depth; the ghost
/// `reader` is what it reads.
pub fn listed<T: Drop, F: Fn(Global, &mut Words<'_>, usize) -> Result<T, ParseFault>>(
    alloc: Global,
    words: &mut Words<'_>,
    depth: usize,
    item: &F,
) -> Result<Items<T>, ParseFault>
    ghost reader: { Reader T }
    requires callable { F.IsAlwaysCallable item.now }
    requires reads { ReadsItem reader depth (F.post item.now) }
    ensures reads { Reads (spec.listed reader words.old) result words.new }
    ensures kept { OnErr result (words.new ≡ words.old) }
{
    let mut ahead = Words::new(words.rest());
    let found = items(alloc, &mut ahead, depth, item)?;
    *words = ahead;
    Ok(found)
}

fn items<T: Drop, F: Fn(Global, &mut Words<'_>, usize) -> Result<T, ParseFault>>(
    alloc: Global,
    words: &mut Words<'_>,
    depth: usize,
    item: &F,
) -> Result<Items<T>, ParseFault>
    ghost reader: { Reader T }
    requires callable { F.IsAlwaysCallable item.now }
    requires reads { ReadsItem reader depth (F.post item.now) }
    ensures { Reads (spec.listed reader words.old) result words.new }
{
    let mut found = Items::new(alloc);
    for _turn in 0..words.rest().len() {
        found.push(item(alloc, words, depth)?)?;
        if !words.eat(TokenClass::Comma) {
            return Ok(found);
        }
    }
    Err(ParseFault::SyntaxError)
}
