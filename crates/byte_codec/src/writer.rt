//! Fields put at the end of a buffer that has room for them.
ghost use Rattle.std.specs.Prelude.{length};
ghost use Rattle.std.specs.Int.{w16, w32, w64};
ghost use Rattle.byte_codec.specs.Field.{byte_text, number_bytes};
ghost use Rattle.byte_codec.specs.Writing.{HasRoom, Puts};

/// Appends `byte` to `out`.
#[tactic(auto, unfolding(crate::specs::Field::byte_text))]
pub fn put_byte(out: &mut Vec<u8>, byte: u8)
    requires room { HasRoom out.old 1 }
    ensures text { Puts out.old out.new (byte_text byte) }
{
    out.push_reserved(byte);
}

/// Appends `bytes` to `out`.
pub fn put_slice(out: &mut Vec<u8>, bytes: &[u8])
    requires room { HasRoom out.old (length bytes.now) }
    ensures text { Puts out.old out.new bytes.now }
{
    out.extend_from_slice(bytes).unwrap();
}

/// Appends `number` to `out`, in two bytes.
#[tactic(auto, unfolding(crate::specs::Field::number_bytes))]
pub fn put_u16(out: &mut Vec<u8>, number: u16)
    requires room { HasRoom out.old 2 }
    ensures text { Puts out.old out.new (number_bytes w16 number) }
{
    let field: [u8; 2] = number.to_be_bytes();
    put_slice(out, &field);
}

/// Appends `number` to `out`, in four bytes.
#[tactic(auto, unfolding(crate::specs::Field::number_bytes))]
pub fn put_u32(out: &mut Vec<u8>, number: u32)
    requires room { HasRoom out.old 4 }
    ensures text { Puts out.old out.new (number_bytes w32 number) }
{
    let field: [u8; 4] = number.to_be_bytes();
    put_slice(out, &field);
}

/// Appends `number` to `out`, in eight bytes.
#[tactic(auto, unfolding(crate::specs::Field::number_bytes))]
pub fn put_u64(out: &mut Vec<u8>, number: u64)
    requires room { HasRoom out.old 8 }
    ensures text { Puts out.old out.new (number_bytes w64 number) }
{
    let field: [u8; 8] = number.to_be_bytes();
    put_slice(out, &field);
}
