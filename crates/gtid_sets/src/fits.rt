// What a clause can't say of an array.
ghost use Rattle.gtid_sets.specs.Canonical.{IsUuid};

/// Each of the bytes is below 256: this walk reads them, and compiles to nothing.
#[inline]
pub(crate) fn bytes_fit(id: &[u8; 16])
    ensures { IsUuid id.now }
{
    'bytes: for i in 0..16 {
        let _ = id[i];
    }
}
