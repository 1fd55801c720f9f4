//! What is written and read: bytes that spell it.
ghost use Rattle.std.specs.Prelude.{◌≡◌, ◌+◌, ◌*◌, length, vec_len, IfOk, OnOk};
ghost use Rattle.round_works.specs.Samples.{length_of};

use std::alloc::{AllocError, Global};
use wire_fields::{put_u8, put_u16, put_u32, put_u64};

/// An image, a group or a message to write and to read.
#[derive(Clone, Copy)]
pub enum Sample {
    /// A leaf of 8 KiB with 510 rows.
    FullLeaf,
    /// One with half of these rows.
    HalfLeaf,
    /// A leaf of 8 KiB with 16 rows.
    WideLeaf,
    /// A group of 50 bytes, with one row.
    SmallGroup,
    /// A message that grants a page with 100 tags.
    Grant,
    /// A message of 1 MiB with 20,971 groups of 50 bytes.
    Groups,
}

impl Sample {
    /// The sample that a word names.
    pub fn named(word: &str) -> Option<Sample> {
        match word {
            "full-leaf" => Some(Sample::FullLeaf),
            "half-leaf" => Some(Sample::HalfLeaf),
            "wide-leaf" => Some(Sample::WideLeaf),
            "small-group" => Some(Sample::SmallGroup),
            "grant" => Some(Sample::Grant),
            "groups" => Some(Sample::Groups),
            _ => None,
        }
    }
}

/// Writer 1's first group: a row of page 1, key `6b`, now `76`, before none.
const SMALL_GROUP: [u8; 50] = [
    0, 0, 0, 1, 0, 0, 0, 1, 0, 0, 0, 0, 0, 0, 0, 1, 0, 0, 0, 1, 1, 0, 0, 0, 1, 0, 0, 0, 0, 0, 0, 0,
    0, 0, 1, 1, 107, 0, 0, 0, 1, 0, 0, 0, 1, 0, 1, 118, 255, 255,
];

// Writes a number of so many bytes.
fn add_u8(out: &mut Vec<u8>, number: u8) -> Result<(), AllocError>
    ensures { OnOk result (length out.new.items ≡ length out.old.items + 1) }
{
    put_u8(out, number)?;
    Ok(())
}

fn add_u16(out: &mut Vec<u8>, number: u16) -> Result<(), AllocError>
    ensures { OnOk result (length out.new.items ≡ length out.old.items + 2) }
{
    put_u16(out, number)?;
    Ok(())
}

fn add_u32(out: &mut Vec<u8>, number: u32) -> Result<(), AllocError>
    ensures { OnOk result (length out.new.items ≡ length out.old.items + 4) }
{
    put_u32(out, number)?;
    Ok(())
}

fn add_u64(out: &mut Vec<u8>, number: u64) -> Result<(), AllocError>
    ensures { OnOk result (length out.new.items ≡ length out.old.items + 8) }
{
    put_u64(out, number)?;
    Ok(())
}

// A row: its key has two bytes, its value so many, and there was none before.
fn put_row(out: &mut Vec<u8>, key: u16, value: u16) -> Result<(), AllocError>
    ensures { OnOk result (length out.new.items ≡ length out.old.items + (15 + value)) }
{
    add_u8(out, 2)?;
    add_u16(out, key)?;
    add_u32(out, 1)?;
    add_u32(out, 1)?;
    add_u16(out, value)?;
    for _ in 0..value {
        add_u8(out, 118)?;
    }
    add_u16(out, 0xffff)?;
    Ok(())
}

// A leaf with open fences: page 1 of table 1 at stamp 1.
fn leaf(alloc: Global, rows: u16, value: u16) -> Result<Vec<u8>, AllocError>
    ensures { IfOk result (λ out. vec_len out ≡ 20 + rows * (15 + value)) }
{
    let mut out = Vec::new(alloc);
    add_u8(&mut out, 1)?;
    add_u32(&mut out, 1)?;
    add_u64(&mut out, 1)?;
    add_u16(&mut out, 1)?;
    add_u8(&mut out, 0)?;
    add_u16(&mut out, 0)?;
    add_u16(&mut out, rows)?;
    for key in 0..rows {
        put_row(&mut out, key, value)?;
    }
    Ok(out)
}

// What messages begin with: the kinds and numbers of the sender and of the receiver, the stamp and the kind.
fn put_head(out: &mut Vec<u8>, from: u8, to: u8, kind: u8) -> Result<(), AllocError>
    ensures { OnOk result (length out.new.items ≡ length out.old.items + 13) }
{
    add_u8(out, from)?;
    add_u8(out, 1)?;
    add_u8(out, to)?;
    add_u8(out, 1)?;
    add_u64(out, 1)?;
    add_u8(out, kind)?;
    Ok(())
}

// One of a grant's tags: its key has two bytes.
fn put_tag(out: &mut Vec<u8>, key: u16) -> Result<(), AllocError>
    ensures { OnOk result (length out.new.items ≡ length out.old.items + 11) }
{
    add_u8(out, 2)?;
    add_u16(out, key)?;
    add_u32(out, 1)?;
    add_u32(out, 1)?;
    Ok(())
}

// The lock manager grants page 1,025 to writer 1 with so many tags and no vector.
fn grant(alloc: Global, tags: u16) -> Result<Vec<u8>, AllocError>
    ensures { IfOk result (λ out. vec_len out ≡ 39 + tags * 11) }
{
    let mut out = Vec::new(alloc);
    put_head(&mut out, 4, 1, 21)?;
    add_u32(&mut out, 1)?;
    add_u32(&mut out, 1025)?;
    add_u32(&mut out, 1)?;
    add_u64(&mut out, 1)?;
    add_u32(&mut out, tags as u32)?;
    for key in 0..tags {
        put_tag(&mut out, key)?;
    }
    add_u16(&mut out, 0)?;
    Ok(out)
}

// A log store sends so many groups of writer 1 to a page store.
fn groups(alloc: Global, count: u32) -> Result<Vec<u8>, AllocError>
    ensures { IfOk result (λ out. vec_len out ≡ 21 + count * 50) }
{
    let mut out = Vec::new(alloc);
    put_head(&mut out, 2, 3, 9)?;
    add_u32(&mut out, 1)?;
    add_u32(&mut out, count)?;
    for _ in 0..count {
        out.extend_from_slice(&SMALL_GROUP)?;
    }
    Ok(out)
}

/// The bytes of a sample.
pub fn bytes(alloc: Global, sample: Sample) -> Result<Vec<u8>, AllocError>
    ensures { IfOk result (λ bytes. vec_len bytes ≡ length_of sample) }
{
    match sample {
        Sample::FullLeaf => leaf(alloc, 510, 1),
        Sample::HalfLeaf => leaf(alloc, 255, 1),
        Sample::WideLeaf => leaf(alloc, 16, 495),
        Sample::SmallGroup => SMALL_GROUP.to_vec(alloc),
        Sample::Grant => grant(alloc, 100),
        Sample::Groups => groups(alloc, 20_971),
    }
}
