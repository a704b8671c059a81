// Little-endian numbers in a slice of bytes. What lies past its end reads as zero.
ghost use Rattle.std.specs.Prelude.{◌≡◌};
ghost use Rattle.records.specs.Bytes.{byte, le16, le32};

pub fn byte_at(bytes: &[u8], i: usize) -> u8
    ensures { result ≡ byte bytes.now i }
{
    bytes.get(i).copied().unwrap_or(0)
}

// The number of 16 bits at a place.
pub fn u16_at(bytes: &[u8], place: u32) -> u16
    ensures { result ≡ le16 bytes.now place }
{
    let i = place as usize;
    u16::from_le_bytes([byte_at(bytes, i), byte_at(bytes, i + 1)])
}

// The number of 32 bits at a place.
pub fn u32_at(bytes: &[u8], place: u32) -> u32
    ensures { result ≡ le32 bytes.now place }
{
    let i = place as usize;
    u32::from_le_bytes([
        byte_at(bytes, i),
        byte_at(bytes, i + 1),
        byte_at(bytes, i + 2),
        byte_at(bytes, i + 3),
    ])
}
