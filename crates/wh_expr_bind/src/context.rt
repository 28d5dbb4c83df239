ghost use Rattle.std.specs.Prelude.{◌≡◌};
ghost use Rattle.wh_naming.specs.Typing as naming;
ghost use Rattle.wh_expr_bind.specs.Forms.{sees};

use crate::Entry;

/// What an expression sees: entries, and whether calls may stand there.
#[derive(Clone, Copy)]
pub(crate) struct Context<'a> {
    pub(crate) entries: &'a [Entry],
    pub(crate) takes_calls: bool,
}

impl Context<'_> {
    /// What a call's argument sees: no call may stand in a call.
    pub(crate) fn argument(self) -> Self
        ensures { sees result ≡ naming.argument (sees self.entry) }
    {
        Context {
            entries: self.entries,
            takes_calls: false,
        }
    }
}
