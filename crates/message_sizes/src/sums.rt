// Numbers of bytes, added up.
#![tactic(auto, using(crate::proofs::Lengths::lengths))]

ghost use Rattle.std.specs.Prelude.{◌≡◌, ◌+◌, length, IfOk};
ghost use Rattle.std.specs.List.{flat_map};
ghost use Rattle.byte_forms.specs.Lists.{several};

use gr_ids::Memory;

/// How the elements of a list are spelled, and how long.
pub(crate) trait SizedForm {
    ghost use Rattle.std.specs.Prelude.{ℕ, List};

    type Element;

    // how an element is spelled
    ghost spelling: { Self → Self.Element → List ℕ };

    /// The number of bytes of an element.
    fn size(&self, x: &Self::Element) -> Result<u64, Memory>
        ensures { IfOk result (λ n. n ≡ length (spelling self.now x.now)) };
}

/// The sum, which is refused as want of memory from 2^64 on.
pub fn sum(a: u64, b: u64) -> Result<u64, Memory>
    ensures { IfOk result (λ n. n ≡ a + b) }
{
    match a.checked_add(b) {
        Some(n) => Ok(n),
        None => Err(Memory),
    }
}

/// The number of bytes of the elements of a list. Linear in it.
pub(crate) fn elements_size<F: SizedForm>(form: &F, xs: &[F::Element]) -> Result<u64, Memory>
    ensures { IfOk result (λ n. n ≡ length (flat_map (F.spelling form.now) xs.now)) }
{
    let mut total = 0;
    for x in xs {
        total = sum(total, form.size(x)?)?;
    }
    Ok(total)
}

/// The number of bytes of a list: four for its count, and those of its elements.
pub(crate) fn list_size<F: SizedForm>(form: &F, xs: &[F::Element]) -> Result<u64, Memory>
    ensures { IfOk result (λ n. n ≡ length (several (F.spelling form.now) xs.now)) }
{
    sum(elements_size(form, xs)?, 4)
}
