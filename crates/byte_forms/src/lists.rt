// Lists: a count of four bytes, and so many elements.
ghost use Rattle.std.specs.Prelude.{◌≡◌, ◌<◌, ◌^◌, ◌++◌, length, IfErr, IfOk, IfSome, OnErr, OnOk, option_copied};
ghost use Rattle.std.specs.List.{AllByRecursion, flat_map};
ghost use Rattle.byte_forms.specs.Cuts.{Takes};
ghost use Rattle.byte_forms.specs.Lists.{elements, list_of, several};
ghost use Rattle.byte_forms.specs.Packs.{Keeps};
ghost use Rattle.byte_forms.specs.Unreads.{Breaks};

use crate::cutter::Cutter;
use crate::packer::Packer;
use crate::unread::Unread;
use gr_ids::{Memory, Sequence};
use std::alloc::Global;

/// How the elements of a list are spelled, each in the light of the one before it.
pub trait ListForm {
    ghost use Rattle.std.specs.Prelude.{ℕ, List, Option};
    ghost use Rattle.byte_forms.specs.Reads.{Reader};

    type Element: Drop;

    // how an element is read after the one before it
    ghost reader: { Self → Option Self.Element → Reader Self.Element };

    // how an element is spelled
    ghost spelling: { Self → Self.Element → List ℕ };

    // what taking the next element needs to know of the one before it
    ghost CanPrecede: { Self → Self.Element → Type 0 };

    // which elements have a spelling here
    ghost CanPut: { Self → Self.Element → Type 0 };

    /// Takes the element that follows this one, or the first one.
    fn take_next(
        &self,
        alloc: Global,
        from: &mut Cutter,
        before: Option<&Self::Element>,
    ) -> Result<Self::Element, Unread>
        requires { IfSome (option_copied before) (CanPrecede self.now) }
        ensures ok { IfOk result (λ x. Takes (reader self.now (option_copied before.entry)) from.old x from.new) }
        ensures precedes { IfOk result (CanPrecede self.now) }
        ensures misfit { IfErr result (λ e. Breaks (reader self.now (option_copied before.entry)) from.old e) };

    /// Puts an element.
    fn put_next(&self, to: &mut Packer, x: &Self::Element) -> Result<(), Memory>
        requires { CanPut self.now x.now }
        ensures ok { OnOk result (to.new ≡ to.old ++ spelling self.now x.now) }
        ensures err { OnErr result (Keeps to.old to.new) };
}

/// Takes a list of at least `least` elements. An error changes nothing. Linear in the bytes: memory is asked for
/// element by element, whatever the count says.
pub fn take_list<L: ListForm>(
    alloc: Global,
    from: &mut Cutter,
    least: u32,
    form: &L,
) -> Result<Sequence<L::Element>, Unread>
    ensures ok { IfOk result (λ xs. Takes (list_of least (L.reader form.now)) from.old xs from.new) }
    ensures misfit { IfErr result (λ e. Breaks (list_of least (L.reader form.now)) from.old e) }
    ensures err { OnErr result (from.new ≡ from.old) }
{
    let mut ahead = from.fork();
    let count = ahead.take_u32_in(least, u32::MAX)?;
    let xs = take_elements(alloc, &mut ahead, count, form)?;
    *from = ahead;
    Ok(xs)
}

fn take_elements<L: ListForm>(
    alloc: Global,
    from: &mut Cutter,
    count: u32,
    form: &L,
) -> Result<Sequence<L::Element>, Unread>
    ensures ok { IfOk result (λ xs. Takes (elements (L.reader form.now) None count) from.old xs from.new) }
    ensures misfit { IfErr result (λ e. Breaks (elements (L.reader form.now) None count) from.old e) }
{
    let mut done = Vec::new(alloc);
    for _i in 0..count {
        match form.take_next(alloc, from, done.last()) {
            Ok(x) => done.push(x)?,
            Err(e) => return Err(e),
        }
    }
    Ok(Sequence::from_vec(done))
}

/// Puts a list. Linear in the bytes; changes nothing where memory is refused.
pub fn put_list<L: ListForm>(to: &mut Packer, xs: &[L::Element], form: &L) -> Result<(), Memory>
    requires few { length xs.now < 2 ^ 32 }
    requires can { AllByRecursion (L.CanPut form.now) xs.now }
    ensures ok { OnOk result (to.new ≡ to.old ++ several (L.spelling form.now) xs.now) }
    ensures err { OnErr result (to.new ≡ to.old) }
{
    let len = to.len();
    let put = put_elements(to, xs, form);
    to.settle(len, put)
}

fn put_elements<L: ListForm>(to: &mut Packer, xs: &[L::Element], form: &L) -> Result<(), Memory>
    requires few { length xs.now < 2 ^ 32 }
    requires can { AllByRecursion (L.CanPut form.now) xs.now }
    ensures ok { OnOk result (to.new ≡ to.old ++ several (L.spelling form.now) xs.now) }
    ensures err { OnErr result (Keeps to.old to.new) }
{
    to.put_u32(xs.len() as u32)?;
    for x in xs {
        form.put_next(to, x)?;
    }
    Ok(())
}
