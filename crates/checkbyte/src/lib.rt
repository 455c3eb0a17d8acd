// The check byte of SAE J1850. The register's step for one byte is one call, so that whoever feeds bytes, here or above,
// does not see how it is worked out.
#![tactic(auto)]

ghost use Rattle.std.specs.Prelude.{◌≡◌};
ghost use Rattle.checkbyte.specs.Register.{shift, step_of, register_from, check_from, check_of};

// The polynomial below its x^8, the register at first, and where it ends over bytes with their check byte.
const POLYNOMIAL: u8 = 0x1D;

pub const ALL_ONES: u8 = 0xFF;

pub const RESIDUE: u8 = 0xC4;

// One bit of the register.
#[tactic(auto, using(crate::specs::Residue::shift_byte))]
fn shifted(register: u8) -> u8
    ensures { result ≡ shift register }
{
    ((register % 128) * 2) ^ ((register / 128) * POLYNOMIAL)
}

// The register after one byte more.
#[tactic(auto, using(crate::proofs::Shifts::all_left, crate::proofs::Shifts::one_done, crate::proofs::Shifts::none_left))]
pub fn step(register: u8, byte: u8) -> u8
    ensures { result ≡ step_of register byte }
{
    let mut r = register ^ byte;
    for _ in 0..8u8 {
        r = shifted(r);
    }
    r
}

// The register after all the bytes, from where it stood before them.
#[tactic(auto, using(crate::specs::Residue::register_at, crate::specs::Residue::register_end))]
pub fn register_from(start: u8, bytes: &[u8]) -> u8
    ensures { result ≡ register_from start bytes.now }
{
    let mut r = start;
    for byte in bytes {
        r = step(r, *byte);
    }
    r
}

// The register after all the bytes, inverted. From all ones it is their check byte.
pub fn check_from(start: u8, bytes: &[u8]) -> u8
    ensures { result ≡ check_from start bytes.now }
{
    ALL_ONES - register_from(start, bytes)
}

// The check byte that is sent after these bytes.
#[tactic(auto, unfolding(crate::specs::Register::check_of))]
pub fn check_byte(bytes: &[u8]) -> u8
    ensures { result ≡ check_of bytes.now }
{
    check_from(ALL_ONES, bytes)
}
