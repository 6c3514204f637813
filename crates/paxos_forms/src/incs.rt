// Lists of incarnations as bytes.
ghost use Rattle.std.specs.Prelude.{◌≡◌, ◌≤◌, ◌<◌, ◌^◌, ◌++◌, length, IfErr, IfOk, IfSome, OnErr, OnOk};
ghost use Rattle.name_forms.specs.Incs.{inc_bytes, next_inc, next_inc_after};
ghost use Rattle.paxos_forms.specs.Welcomes.{config_bytes, next_config};

use byte_forms::{Cutter, ListForm, Packer, Unread, put_list, take_list};
use gr_ids::{Inc, Memory, Sequence};
use name_forms::{put_inc, take_inc, take_inc_after};
use std::alloc::Global;

/// Incarnations, each above the one before it.
pub(crate) struct Ascending;

impl ListForm for Ascending {
    type Element = Inc;

    ghost reader = { λ form before. next_inc_after before };

    ghost spelling = { λ form inc. inc_bytes inc };

    ghost CanPrecede = { λ form inc. inc.server ≤ 32 };

    ghost CanPut = { λ form inc. Unit {0} };

    fn take_next(
        &self,
        _alloc: Global,
        from: &mut Cutter,
        before: Option<&Inc>,
    ) -> Result<Inc, Unread> {
        Ok(take_inc_after(from, before.copied())?)
    }

    fn put_next(&self, to: &mut Packer, inc: &Inc) -> Result<(), Memory> {
        put_inc(to, *inc)
    }
}

/// Any incarnations.
pub(crate) struct Incs;

impl ListForm for Incs {
    type Element = Inc;

    ghost reader = { λ form before. next_inc };

    ghost spelling = { λ form inc. inc_bytes inc };

    ghost CanPrecede = { λ form inc. Unit {0} };

    ghost CanPut = { λ form inc. Unit {0} };

    fn take_next(
        &self,
        _alloc: Global,
        from: &mut Cutter,
        _before: Option<&Inc>,
    ) -> Result<Inc, Unread> {
        Ok(take_inc(from)?)
    }

    fn put_next(&self, to: &mut Packer, inc: &Inc) -> Result<(), Memory> {
        put_inc(to, *inc)
    }
}

/// Configurations: lists of any incarnations.
pub(crate) struct Configs;

impl ListForm for Configs {
    type Element = Sequence<Inc>;

    ghost reader = { λ form before. next_config };

    ghost spelling = { λ form config. config_bytes config };

    ghost CanPrecede = { λ form config. Unit {0} };

    ghost CanPut = { λ form config. length config < 2 ^ 32 };

    fn take_next(
        &self,
        alloc: Global,
        from: &mut Cutter,
        _before: Option<&Sequence<Inc>>,
    ) -> Result<Sequence<Inc>, Unread> {
        take_list(alloc, from, 0, &Incs)
    }

    fn put_next(&self, to: &mut Packer, config: &Sequence<Inc>) -> Result<(), Memory> {
        put_list(to, config.as_slice(), &Incs)
    }
}
