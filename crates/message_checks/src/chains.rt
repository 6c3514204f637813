// Lists each of whose elements is right behind the one before it.
ghost use Rattle.std.specs.Prelude.{◌≡◌, ◌≤◌, ◌↔◌, IsTrue, None, length, option_copied};
ghost use Rattle.byte_forms.specs.Lists.{IsChain};
ghost use Rattle.slot_values.specs.Spelling.{last_u32};
ghost use Rattle.message_checks.specs.Parts.{IsListOf};

use gr_ids::Sequence;

/// Which elements of a list may stand behind which.
pub(crate) trait Rule {
    ghost use Rattle.std.specs.Prelude.{Option};

    type Element;

    // an element is right behind the one before it, if there is one
    ghost IsNext: { Self → Option Self.Element → Self.Element → Type 0 };

    fn is_next(&self, before: Option<&Self::Element>, x: &Self::Element) -> bool
        ensures { IsTrue result ↔ IsNext self.now (option_copied before.entry) x.now };
}

// Whether each element is right behind the one before it.
fn is_chain<R: Rule>(rule: &R, xs: &[R::Element]) -> bool
    ensures { IsTrue result ↔ IsChain (R.IsNext rule.now) None xs.now }
{
    let mut before = None;
    let mut left = xs;
    while let Some((first, behind)) = left.split_first() {
        if !rule.is_next(before, first) {
            return false;
        }
        before = Some(first);
        left = behind;
    }
    true
}

/// Whether it is so, and their count fits four bytes. Linear in them.
#[tactic(auto, unfolding(crate::specs::Parts::IsListOf))]
pub(crate) fn is_list<R: Rule>(rule: &R, xs: &Sequence<R::Element>) -> bool
    ensures { IsTrue result ↔ IsListOf (R.IsNext rule.now) xs.now }
{
    is_chain(rule, xs.as_slice()) && are_few(xs.as_slice())
}

/// Whether a list's length fits four bytes.
pub(crate) fn are_few<T>(xs: &[T]) -> bool
    ensures { IsTrue result ↔ (length xs.now ≤ last_u32) }
{
    xs.len() <= u32::MAX as usize
}
