// Versions of a row.
ghost use Rattle.std.specs.Prelude.{◌≡◌, ◌<◌, false, true, if◌then◌else◌, length, option_copied, vec_capacity};
ghost use Rattle.gtid_sets.specs.Sets.{Gtids, has};
ghost use Rattle.row_store.specs.Chains.{last_row, seen_in};
ghost use Rattle.row_store.specs.Inside.{is_newest};

use gr_ids::{Blob, Gtid};
use gtid_sets::GtidSet;

/// What a transaction left of a row: its value, None where there is none.
#[derive(Debug, Drop)]
pub struct Version {
    pub gtid: Gtid,
    pub row: Option<Blob>,
}

/// The row as the newest version in the set has it.
pub(crate) fn newest_in<'a>(versions: &'a [Version], view: &GtidSet) -> Option<&'a Blob>
    ensures { option_copied result ≡ seen_in view.now versions.now }
{
    let mut rest = versions;
    while let Some((newest, older)) = rest.split_last() {
        if view.contains(newest.gtid) {
            return newest.row.as_ref();
        }
        rest = older;
    }
    None
}

/// The row as the newest version has it.
pub(crate) fn newest_row(versions: &[Version]) -> Option<&Blob>
    ensures { option_copied result ≡ last_row versions.now }
{
    let (newest, _) = versions.split_last()?;
    newest.row.as_ref()
}

/// Puts a version behind the others, or in the place of the newest one where that is of the same transaction.
pub(crate) fn put_version(versions: &mut Vec<Version>, version: Version)
    requires { is_newest version.gtid versions.old.items ≡ false → length versions.old.items < vec_capacity versions.old }
    ensures seen { (e : Gtids) → seen_in e versions.new.items ≡ (if has e version.gtid then version.row else seen_in e versions.old.items) }
    ensures newest { (last_row versions.new.items ≡ version.row) × (is_newest version.gtid versions.new.items ≡ true) }
{
    make_way(versions, version.gtid);
    match versions.push(version) {
        Ok(()) => {}
        Err(_) => unreachable!(),
    }
}

// Drops the newest version where it is of this transaction. Then there is room for one.
fn make_way(versions: &mut Vec<Version>, gtid: Gtid)
    requires { is_newest gtid versions.old.items ≡ false → length versions.old.items < vec_capacity versions.old }
    ensures seen { (e : Gtids) → has e gtid ≡ false → seen_in e versions.new.items ≡ seen_in e versions.old.items }
    ensures room { length versions.new.items < vec_capacity versions.new }
{
    if is_of(versions, gtid) {
        versions.pop();
    }
}

// Whether the newest version is of this transaction.
fn is_of(versions: &[Version], gtid: Gtid) -> bool
    ensures { result ≡ is_newest gtid versions.now }
{
    match versions.split_last() {
        Some((newest, _)) => newest.gtid == gtid,
        None => false,
    }
}
