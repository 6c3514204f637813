// Names packed into bytes. Each call takes constant time, and changes nothing where memory is refused.
ghost use Rattle.std.specs.Prelude.{◌≡◌, ◌++◌, OnErr, OnOk};
ghost use Rattle.byte_forms.specs.Packs.{Keeps};
ghost use Rattle.name_forms.specs.Incs.{inc_bytes};
ghost use Rattle.name_forms.specs.Ballots.{ballot_bytes};
ghost use Rattle.name_forms.specs.Ids.{id_bytes};
ghost use Rattle.name_forms.specs.Gtids.{gtid_bytes};

use byte_forms::Packer;
use gr_ids::{Ballot, Gtid, Inc, Memory, ValueId};

/// Puts an incarnation.
pub fn put_inc(to: &mut Packer, inc: Inc) -> Result<(), Memory>
    ensures ok { OnOk result (to.new ≡ to.old ++ inc_bytes inc) }
    ensures err { OnErr result (to.new ≡ to.old) }
{
    let len = to.len();
    let put = put_inc_fields(to, inc);
    to.settle(len, put)
}

fn put_inc_fields(to: &mut Packer, inc: Inc) -> Result<(), Memory>
    ensures ok { OnOk result (to.new ≡ to.old ++ inc_bytes inc) }
    ensures err { OnErr result (Keeps to.old to.new) }
{
    to.put_u8(inc.server)?;
    to.put_u32(inc.start)
}

/// Puts a ballot.
pub fn put_ballot(to: &mut Packer, ballot: Ballot) -> Result<(), Memory>
    ensures ok { OnOk result (to.new ≡ to.old ++ ballot_bytes ballot) }
    ensures err { OnErr result (to.new ≡ to.old) }
{
    let len = to.len();
    let put = put_ballot_fields(to, ballot);
    to.settle(len, put)
}

fn put_ballot_fields(to: &mut Packer, ballot: Ballot) -> Result<(), Memory>
    ensures ok { OnOk result (to.new ≡ to.old ++ ballot_bytes ballot) }
    ensures err { OnErr result (Keeps to.old to.new) }
{
    to.put_u32(ballot.round)?;
    put_inc(to, ballot.inc)
}

/// Puts the identity of a value.
pub fn put_id(to: &mut Packer, id: ValueId) -> Result<(), Memory>
    ensures ok { OnOk result (to.new ≡ to.old ++ id_bytes id) }
    ensures err { OnErr result (to.new ≡ to.old) }
{
    let len = to.len();
    let put = put_id_fields(to, id);
    to.settle(len, put)
}

fn put_id_fields(to: &mut Packer, id: ValueId) -> Result<(), Memory>
    ensures ok { OnOk result (to.new ≡ to.old ++ id_bytes id) }
    ensures err { OnErr result (Keeps to.old to.new) }
{
    put_inc(to, id.origin)?;
    to.put_u64(id.number)
}

/// Puts a GTID.
pub fn put_gtid(to: &mut Packer, gtid: Gtid) -> Result<(), Memory>
    ensures ok { OnOk result (to.new ≡ to.old ++ gtid_bytes gtid) }
    ensures err { OnErr result (to.new ≡ to.old) }
{
    let len = to.len();
    let put = put_gtid_fields(to, gtid);
    to.settle(len, put)
}

fn put_gtid_fields(to: &mut Packer, gtid: Gtid) -> Result<(), Memory>
    ensures ok { OnOk result (to.new ≡ to.old ++ gtid_bytes gtid) }
    ensures err { OnErr result (Keeps to.old to.new) }
{
    to.put_slice(&gtid.source)?;
    to.put_u64(gtid.number)
}
