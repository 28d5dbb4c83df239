ghost use Rattle.std.specs.Prelude.{◌≡◌, Some, bytes_eq, refl};
ghost use Rattle.std.specs.Cmp.{partial_equiv_from_equiv};
ghost use Rattle.std.specs.Cmp.Lexicographic.{slice_cmp, nat_list_cmp_total, nat_list_eq_equiv};
ghost use Rattle.std.specs.Cmp.Lexicographic.{texts_po, texts_ties};
ghost use Rattle.std.specs.Ordering.{nat_cmp};

use std::alloc::{AllocError, Global};
use std::cmp::Ordering;
use std::marker::Model;
use std::sync::Arc;

/// UTF-8 of at most 65,536 bytes, the longest that a statement can hold. Contracts see the bytes.
/// It takes one word where it stands, so that a value takes two, and its copies share the bytes.
#[derive(Debug, Drop)]
pub struct Text {
    inner: Arc<String>,
}

impl Model for Text {
    ghost use Rattle.std.specs.Prelude.{List, ℕ, ◌≤◌, length, string_bytes};

    ghost Value = { List ℕ };

    ghost view = { λ t. string_bytes t.inner.value };

    ghost invariant = { λ t. length (string_bytes t.inner.value) ≤ 65536 };
}

impl Text {
    ghost use Rattle.std.specs.Prelude.{◌≡◌, ◌≤◌, length, string_bytes, IfOk, IfSome, IfNone};
    ghost use Rattle.wh_value.specs.Value.{IsText};

    /// The longest text, in bytes.
    pub const MAX_BYTES: usize = 65536;

    /// The text of these bytes, where they are one.
    pub fn from_bytes(alloc: Global, bytes: &[u8]) -> Option<Result<Text, AllocError>>
        ensures found { IfSome result
            (λ made. IsText bytes.now × IfOk made (λ text. text ≡ bytes.now)) }
        ensures none { IfNone result (IsText bytes.now → ⊥) }
    {
        if bytes.len() > Text::MAX_BYTES {
            return None;
        }
        match str::from_utf8(bytes) {
            Ok(text) => Some(Text::of(alloc, text)),
            Err(_) => None,
        }
    }

    /// A text of at most 65,536 bytes.
    pub fn of(alloc: Global, text: &str) -> Result<Text, AllocError>
        requires { length text.now ≤ 65536 }
        ensures { IfOk result (λ made. made ≡ text.now) }
    {
        let owned = String::from_str(alloc, text)?;
        Text::from_string(alloc, owned)
    }

    /// A string of at most 65,536 bytes, as it stands.
    pub fn from_string(alloc: Global, owned: String) -> Result<Text, AllocError>
        requires { length (string_bytes owned) ≤ 65536 }
        ensures { IfOk result (λ made. made ≡ string_bytes owned) }
    {
        let inner = Arc::new(alloc, owned)?;
        Ok(Text { inner })
    }

    pub fn as_bytes(&self) -> &[u8]
        ensures value { result.now ≡ self.now }
        ensures text { IsText self.now }
    {
        self.inner.as_str().as_bytes()
    }

    /// An equal text, which shares the bytes. Fails only past 2^63 owners of them.
    pub fn copy(&self, _alloc: Global) -> Result<Text, AllocError>
        ensures { IfOk result (λ copy. copy ≡ self.now) }
    {
        let inner = Arc::try_clone(&self.inner)?;
        Ok(Text { inner })
    }
}

impl PartialEq for Text {
    ghost eq = { bytes_eq };

    ghost laws = { partial_equiv_from_equiv nat_list_eq_equiv };

    fn eq(&self, other: &Text) -> bool {
        self.as_bytes() == other.as_bytes()
    }
}

impl Eq for Text {
    ghost laws = { nat_list_eq_equiv };
}

impl PartialOrd for Text {
    ghost partial_cmp = { λ a b. Some (slice_cmp nat_cmp a b) };

    ghost laws = { texts_po };

    fn partial_cmp(&self, other: &Text) -> Option<Ordering> {
        Some(self.cmp(other))
    }
}

/// The order of the bytes, from left to right.
impl Ord for Text {
    ghost cmp = { slice_cmp nat_cmp };

    ghost total = { nat_list_cmp_total };

    ghost matches_partial_cmp = { λ a b. refl };

    ghost matches_eq = { texts_ties };

    fn cmp(&self, other: &Text) -> Ordering {
        self.as_bytes().cmp(other.as_bytes())
    }
}
