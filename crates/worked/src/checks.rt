// The check byte of document 01's examples and of published vectors.
use std::io;

// Document 01's five messages; then "123456789", which catalogues of check codes give for CRC-8/SAE-J1850 as 4B; then
// the seven that AUTOSAR's specification of its CRC library lists for this code.
const VECTORS: [&[u8]; 13] = [
    &[0x00],
    &[0xFF],
    &[0xFF, 0xFF],
    &[0xFF, 0x01],
    &[0x00, 0xC4],
    b"123456789",
    &[0x00, 0x00, 0x00, 0x00],
    &[0xF2, 0x01, 0x83],
    &[0x0F, 0xAA, 0x00, 0x55],
    &[0x00, 0xFF, 0x55, 0x11],
    &[0x33, 0x22, 0x55, 0xAA, 0xBB, 0xCC, 0xDD, 0xEE, 0xFF],
    &[0x92, 0x6B, 0x55],
    &[0xFF, 0xFF, 0xFF, 0xFF],
];

// A line for each vector: a message and its check byte.
pub(crate) fn vectors(rt: &impl Print) -> io::Result<()> {
    for message in VECTORS {
        print!(rt; "check ")?;
        for byte in message {
            print!(rt; "{byte:02X}")?;
        }
        println!(rt; ": {:02X}", checkbyte::check_byte(message))?;
    }
    Ok(())
}

// The check bytes of all messages of one byte, sixteen to a line.
pub(crate) fn single_bytes(rt: &impl Print) -> io::Result<()> {
    for high in 0..16u8 {
        let first = high * 16;
        let last = first + 15;
        print!(rt; "checks of {first:02X} to {last:02X}:")?;
        for byte in first..=last {
            print!(rt; " {:02X}", checkbyte::check_byte(&[byte]))?;
        }
        println!(rt;)?;
    }
    Ok(())
}
