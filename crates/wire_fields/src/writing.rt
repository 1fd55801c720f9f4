//! Writing fields at the end of bytes.
ghost use Rattle.std.specs.Prelude.{◌≡◌, ◌≤◌, ◌++◌, length, OnOk, IfSome};
ghost use Rattle.std.specs.Option.{option_copied, option_map};
ghost use Rattle.wire_fields.specs.Spelling.{u8_bytes, u16_bytes, u32_bytes, u64_bytes, key_bytes, fence_bytes, value_bytes, before_bytes, entry_bytes, vector_bytes, IsKey, IsFence, IsValue};

use byteorder::{BigEndian, ByteOrder};
use std::alloc::AllocError;

const NONE: u16 = 0xffff;

const SAME: u16 = 0xfffe;

/// Writes a number of one byte.
pub fn put_u8(out: &mut Vec<u8>, number: u8) -> Result<(), AllocError>
    ensures { OnOk result (out.new.items ≡ out.old.items ++ u8_bytes number) }
{
    out.push(number)?;
    Ok(())
}

/// Writes a number of two bytes.
#[tactic(auto, unfolding(crate::specs::Spelling::u16_bytes))]
pub fn put_u16(out: &mut Vec<u8>, number: u16) -> Result<(), AllocError>
    ensures { OnOk result (out.new.items ≡ out.old.items ++ u16_bytes number) }
{
    let mut bytes = [0; 2];
    BigEndian::write_u16(&mut bytes, number);
    out.extend_from_slice(&bytes)
}

/// Writes a number of four bytes.
#[tactic(auto, unfolding(crate::specs::Spelling::u32_bytes))]
pub fn put_u32(out: &mut Vec<u8>, number: u32) -> Result<(), AllocError>
    ensures { OnOk result (out.new.items ≡ out.old.items ++ u32_bytes number) }
{
    let mut bytes = [0; 4];
    BigEndian::write_u32(&mut bytes, number);
    out.extend_from_slice(&bytes)
}

/// Writes a number of eight bytes.
#[tactic(auto, unfolding(crate::specs::Spelling::u64_bytes))]
pub fn put_u64(out: &mut Vec<u8>, number: u64) -> Result<(), AllocError>
    ensures { OnOk result (out.new.items ≡ out.old.items ++ u64_bytes number) }
{
    let mut bytes = [0; 8];
    BigEndian::write_u64(&mut bytes, number);
    out.extend_from_slice(&bytes)
}

/// Writes a key.
pub fn put_key(out: &mut Vec<u8>, key: &[u8]) -> Result<(), AllocError>
    requires { IsKey key.now }
    ensures { OnOk result (out.new.items ≡ out.old.items ++ key_bytes key.now) }
{
    put_u8(out, key.len() as u8)?;
    out.extend_from_slice(key)?;
    Ok(())
}

/// Writes a fence: a key, or none for the open end.
pub fn put_fence(out: &mut Vec<u8>, fence: Option<&[u8]>) -> Result<(), AllocError>
    requires { IsFence (option_copied fence) }
    ensures { OnOk result (out.new.items ≡ out.old.items ++ fence_bytes (option_copied fence.entry)) }
{
    match fence {
        None => put_u8(out, 0)?,
        Some(key) => put_key(out, key)?,
    }
    Ok(())
}

/// Writes a value, or none.
pub fn put_value(out: &mut Vec<u8>, value: Option<&[u8]>) -> Result<(), AllocError>
    requires { IsValue (option_copied value) }
    ensures { OnOk result (out.new.items ≡ out.old.items ++ value_bytes (option_copied value.entry)) }
{
    match value {
        None => put_u16(out, NONE)?,
        Some(value) => {
            put_u16(out, value.len() as u16)?;
            out.extend_from_slice(value)?;
        }
    }
    Ok(())
}

/// Writes what was there before: none for the same as now, else the value or none that was there,
/// which is not the one of now.
pub fn put_before(out: &mut Vec<u8>, before: Option<Option<&[u8]>>) -> Result<(), AllocError>
    requires { IfSome before (λ v. IsValue (option_copied v)) }
    ensures { OnOk result (out.new.items ≡ out.old.items ++ before_bytes (option_map option_copied before.entry)) }
{
    match before {
        None => put_u16(out, SAME)?,
        Some(value) => put_value(out, value)?,
    }
    Ok(())
}

fn put_entry(out: &mut Vec<u8>, entry: (u32, u64)) -> Result<(), AllocError>
    ensures { OnOk result (out.new.items ≡ out.old.items ++ entry_bytes entry) }
{
    put_u32(out, entry.0)?;
    put_u64(out, entry.1)?;
    Ok(())
}

/// Writes a vector: the writers and their stamps.
pub fn put_vector(out: &mut Vec<u8>, entries: &[(u32, u64)]) -> Result<(), AllocError>
    requires { length entries.now ≤ 65535 }
    ensures { OnOk result (out.new.items ≡ out.old.items ++ vector_bytes entries.now) }
{
    put_u16(out, entries.len() as u16)?;
    for entry in entries {
        put_entry(out, *entry)?;
    }
    Ok(())
}
