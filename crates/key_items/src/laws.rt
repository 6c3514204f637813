// Laws of items and their bytes.
ghost use Rattle.std.specs.Prelude.{Option};
ghost use Rattle.byte_forms.specs.Forms.{IsRead, IsSpelled};
ghost use Rattle.key_items.specs.Items.{Item};
ghost use Rattle.key_items.specs.Spelling.{AreBytes, IsItemAfter, item_bytes, next_item_after};

/// An item's bytes are read as that item, whatever follows; what is read is an item whose bytes were read, and is above
/// the one before it.
#[tactic(auto, using(crate::proofs::ItemForms::item_is_read, crate::proofs::ItemForms::item_spelled))]
pub fn bytes_of_items()
    ensures reads { (before : Option Item) → IsRead (λ i. IsItemAfter before i × AreBytes i) item_bytes (next_item_after before) }
    ensures spells { (before : Option Item) → IsSpelled (IsItemAfter before) item_bytes (next_item_after before) }
{}
