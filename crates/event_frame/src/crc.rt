// The CRC-32 takes 16 bytes a step: the register is shifted by the whole block at once, and the
// share of each byte is looked up in a table of its own. The loads don't wait for one another.

ghost use Rattle.std.specs.Prelude.{◌≡◌, ◌+◌, ◌<◌};
ghost use Rattle.event_frame.specs.Crc.{crc_of};
ghost use Rattle.event_frame.specs.Register.{times_bytes, absorbed, absorbed_blocks};

use crate::products::PRODUCTS;

/// The CRC-32 of IEEE 802.3, clause 3.2.9, as the event stream encoding uses it twice in each
/// frame. The CRC of `123456789` is `0xCBF43926`.
pub fn crc32(bytes: &[u8]) -> u32
    ensures { result ≡ crc_of bytes.now }
{
    let (blocks, rest) = bytes.as_chunks::<16>();
    !absorb_bytes(absorb_blocks(u32::MAX, blocks), rest)
}

fn absorb_blocks(start: u32, blocks: &[[u8; 16]]) -> u32
    ensures { result ≡ absorbed_blocks start blocks.now }
{
    let mut register = start;
    for block in blocks {
        register = absorb_block(register, block);
    }
    register
}

fn absorb_bytes(start: u32, bytes: &[u8]) -> u32
    ensures { result ≡ absorbed start bytes.now }
{
    let mut register = start;
    for byte in bytes {
        let [low, ..] = register.to_le_bytes();
        register = product(0, low ^ *byte) ^ (register >> 8);
    }
    register
}

#[inline(always)]
fn absorb_block(register: u32, block: &[u8; 16]) -> u32
    ensures { result ≡ absorbed register block.now }
{
    let [r0, r1, r2, r3] = register.to_le_bytes();
    product(15, r0 ^ block[0])
        ^ product(14, r1 ^ block[1])
        ^ product(13, r2 ^ block[2])
        ^ product(12, r3 ^ block[3])
        ^ product(11, block[4])
        ^ product(10, block[5])
        ^ product(9, block[6])
        ^ product(8, block[7])
        ^ product(7, block[8])
        ^ product(6, block[9])
        ^ product(5, block[10])
        ^ product(4, block[11])
        ^ product(3, block[12])
        ^ product(2, block[13])
        ^ product(1, block[14])
        ^ product(0, block[15])
}

// The register `byte` times x^(8 (k + 1)).
#[inline(always)]
fn product(k: usize, byte: u8) -> u32
    requires { k < 16 }
    ensures { result ≡ times_bytes (k + 1) byte }
{
    PRODUCTS[k][byte as usize]
}
