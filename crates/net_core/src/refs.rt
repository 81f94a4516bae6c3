ghost use Rattle.std.specs.Prelude.{◌≡◌, ◌<◌, [], ◌∷◌, ◌++◌, length, slice_get, slice_index_or, Some};
ghost use Rattle.net_core.specs.Packing.{ref_of, slot_bytes, zero_bit};

use std::marker::Model;

/// What one read of a fire names.
#[derive(Clone, Copy, Debug)]
pub enum Ref {
    /// No token: the value 0.
    Zero,
    /// The token that lies in this slot of the process.
    Slot(u32),
}

impl PartialEq for Ref {
    ghost use Rattle.net_core.specs.References.{ref_eq};
    ghost use Rattle.net_core.specs.ReferenceLaws.{ref_per};

    ghost eq = { ref_eq };

    ghost laws = { ref_per };

    fn eq(&self, other: &Ref) -> bool {
        match (*self, *other) {
            (Ref::Zero, Ref::Zero) => true,
            (Ref::Slot(slot), Ref::Slot(other)) => slot == other,
            _ => false,
        }
    }
}

impl Eq for Ref {
    ghost use Rattle.net_core.specs.ReferenceLaws.{ref_equiv};

    ghost laws = { ref_equiv };
}

/// At most 8 references, one for each read, kept in place in 34 bytes. What stands past the length is 0.
#[derive(Clone, Copy, Debug)]
pub struct Refs {
    len: u8,
    // A bit for each place that holds `Zero`, the lowest for the first.
    zeros: u8,
    // The slots by bytes, 0 for `Zero`, so that no byte is lost where an event is laid out.
    slots: [[u8; 4]; 8],
}

impl Model for Refs {
    ghost use Rattle.std.specs.Prelude.{List};
    ghost use Rattle.net_core.specs.declared.refs.Ref.{Ref};
    ghost use Rattle.net_core.specs.Packing.{refs_in, inside_of, IsPacked};

    ghost Value = { List Ref };

    ghost view = { refs_in };

    ghost invariant = { IsPacked };

    ghost inverse = { inside_of };

    ghost inverse_ok = { λ refs same. same };
}

impl PartialEq for Refs {
    ghost use Rattle.net_core.specs.References.{refs_eq};
    ghost use Rattle.net_core.specs.ReferenceLaws.{refs_per};

    ghost eq = { refs_eq };

    ghost laws = { refs_per };

    fn eq(&self, other: &Refs) -> bool {
        self.len == other.len && self.zeros == other.zeros && self.slots == other.slots
    }
}

impl Eq for Refs {
    ghost use Rattle.net_core.specs.ReferenceLaws.{refs_equiv};

    ghost laws = { refs_equiv };
}

// The bit and the bytes by which a reference is kept.
fn parts_of(reference: Ref) -> (u8, [u8; 4])
    ensures bit { result.0 ≡ zero_bit reference }
    ensures bytes { result.1 ≡ slot_bytes reference }
    ensures back { ref_of result.0 result.1 ≡ reference }
{
    match reference {
        Ref::Zero => (1, [0; 4]),
        Ref::Slot(slot) => (0, slot.to_le_bytes()),
    }
}

impl Refs {
    /// No reference.
    pub fn empty() -> Refs
        ensures { result ≡ [] }
    {
        Refs {
            len: 0,
            zeros: 0,
            slots: [[0; 4]; 8],
        }
    }

    /// Adds a reference at the end. It takes no memory.
    pub fn push(&mut self, reference: Ref)
        requires { length self.old < 8 }
        ensures { self.new ≡ self.old ++ reference ∷ [] }
    {
        let (zero, bytes) = parts_of(reference);
        self.zeros |= zero << self.len;
        self.slots[usize::from(self.len)] = bytes;
        self.len += 1;
    }

    /// The number of references.
    pub fn len(&self) -> usize
        ensures { result ≡ length self.now }
    {
        usize::from(self.len)
    }

    /// The reference of this number, in the order of the reads.
    pub fn at(&self, number: usize) -> Ref
        requires { number < length self.now }
        ensures item { slice_get self.now number ≡ Some result }
        ensures value { result ≡ slice_index_or self.now number result }
    {
        if (self.zeros >> number) & 1 == 1 {
            Ref::Zero
        } else {
            Ref::Slot(u32::from_le_bytes(self.slots[number]))
        }
    }

    /// The reference of this number, or `None` past the last.
    pub fn get(&self, number: usize) -> Option<Ref>
        ensures { result ≡ slice_get self.now number }
    {
        if number < self.len() {
            Some(self.at(number))
        } else {
            None
        }
    }
}
