//! Big-endian numbers read from fields.
ghost use Rattle.std.specs.Prelude.{◌≡◌, length};
ghost use Rattle.std.specs.Int.{w16, w32, w64};
ghost use Rattle.byte_codec.specs.Field.{number_in};

/// Returns the big-endian number in the two bytes of `field`.
#[tactic(auto, unfolding(crate::specs::Field::number_in))]
pub fn u16_in(field: &[u8]) -> u16
    requires len { length field.now ≡ 2 }
    ensures number { result ≡ number_in w16 field.now }
{
    u16::from_be_bytes([field[0], field[1]])
}

/// Returns the big-endian number in the four bytes of `field`.
#[tactic(auto, unfolding(crate::specs::Field::number_in))]
pub fn u32_in(field: &[u8]) -> u32
    requires len { length field.now ≡ 4 }
    ensures number { result ≡ number_in w32 field.now }
{
    u32::from_be_bytes([field[0], field[1], field[2], field[3]])
}

/// Returns the big-endian number in the eight bytes of `field`.
#[tactic(auto, unfolding(crate::specs::Field::number_in))]
pub fn u64_in(field: &[u8]) -> u64
    requires len { length field.now ≡ 8 }
    ensures number { result ≡ number_in w64 field.now }
{
    u64::from_be_bytes([
        field[0], field[1], field[2], field[3], field[4], field[5], field[6], field[7],
    ])
}
