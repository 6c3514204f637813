// UUIDs as the bytes that they are.
ghost use Rattle.gtid_sets.specs.Canonical.{IsUuid};

/// A UUID is sixteen bytes: this reads them, and compiles to nothing.
#[inline]
pub(crate) fn uuid_fits(id: &[u8; 16])
    ensures { IsUuid id.now }
{
    'bytes: for i in 0..16 {
        let _ = id[i];
    }
}
