//! Vectors as bytes.
ghost use Rattle.std.specs.Prelude.{◌≡◌, ◌≤◌, ◌++◌, length, map, IfOk, OnOk, Ok};
ghost use Rattle.wire_fields.specs.Spelling.{entry_bytes};
ghost use Rattle.wire_fields.specs.Reading.{Gives};
ghost use Rattle.log_record.specs.Reading.{learnt_at};
ghost use Rattle.log_record.specs.Spelling.{pair_of, entry_of, learnt_bytes};

use std::alloc::{AllocError, Global};
use tm_base::{ItemList, Stamp, Vector, VectorEntry, Writer};
use wire_fields::{ReadError, put_u16, put_u32, put_u64};

fn entries_of(alloc: Global, pairs: &[(u32, u64)]) -> Result<Vec<VectorEntry>, AllocError>
    ensures { IfOk result (λ entries. entries.items ≡ map entry_of pairs.now) }
{
    let mut entries = Vec::new(alloc);
    for pair in pairs {
        entries.push(VectorEntry {
            writer: Writer(pair.0),
            stamp: Stamp(pair.1),
        })?;
    }
    Ok(entries)
}

/// Reads a vector that has no entry of the writer `own` (0 where none is left out).
#[tactic(auto, unfolding(crate::specs::Reading::learnt_at))]
pub fn read_vector(
    alloc: Global,
    total: usize,
    own: u32,
    bytes: &[u8],
) -> Result<(Vector, &[u8]), ReadError>
    ensures { Gives (λ x. (x.0, x.1.now)) result (learnt_at total own bytes.now) }
{
    let (pairs, rest) = wire_fields::read_vector(alloc, total, own, bytes)?;
    let entries = entries_of(alloc, &pairs)?;
    let vector = Vector::from_entries(ItemList::from_vec(entries));
    Ok((vector, rest))
}

fn put_entries(out: &mut Vec<u8>, entries: &[VectorEntry]) -> Result<(), AllocError>
    requires { length entries.now ≤ 65535 }
    ensures { OnOk result (out.new.items ≡ out.old.items ++ learnt_bytes entries.now) }
{
    put_u16(out, entries.len() as u16)?;
    for entry in entries {
        put_entry(out, *entry)?;
    }
    Ok(())
}

fn put_entry(out: &mut Vec<u8>, entry: VectorEntry) -> Result<(), AllocError>
    ensures { OnOk result (out.new.items ≡ out.old.items ++ entry_bytes (pair_of entry)) }
{
    put_u32(out, entry.writer.0)?;
    put_u64(out, entry.stamp.0)?;
    Ok(())
}

/// Writes a vector of at most 65,535 entries.
pub fn put_vector(out: &mut Vec<u8>, vector: &Vector) -> Result<(), AllocError>
    requires { length vector.now ≤ 65535 }
    ensures { OnOk result (out.new.items ≡ out.old.items ++ learnt_bytes vector.now) }
{
    put_entries(out, vector.as_slice())?;
    Ok(())
}
