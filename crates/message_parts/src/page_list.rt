//! Pages with their stamps as bytes.
ghost use Rattle.std.specs.Prelude.{◌≡◌, ◌≤◌, ◌++◌, length, OnOk};
ghost use Rattle.wire_fields.specs.Reading.{Gives};
ghost use Rattle.message_parts.specs.Spelling.{page_stamp_bytes, page_stamps_bytes};
ghost use Rattle.message_parts.specs.Reading.{page_stamp_at, page_list_at, page_stamps_at};

use crate::number::{read_page, read_stamp};
use std::alloc::{AllocError, Global};
use tm_base::{ItemList, PageStamp, PageStampList};
use wire_fields::{ReadError, offset, put_u32, put_u64, read_u32};

#[tactic(auto, unfolding(crate::specs::Reading::page_stamp_at))]
fn read_page_stamp(total: usize, least: u64, bytes: &[u8]) -> Result<(PageStamp, &[u8]), ReadError>
    ensures { Gives (λ x. (x.0, x.1.now)) result (page_stamp_at total least bytes.now) }
{
    let (page, rest) = read_page(total, bytes)?;
    if u64::from(page.0) < least {
        return Err(ReadError::NotCanonical {
            at: offset(total, bytes),
        });
    }
    let (stamp, rest) = read_stamp(total, rest)?;
    Ok((PageStamp { page, stamp }, rest))
}

fn read_page_list(
    alloc: Global,
    total: usize,
    count: u32,
    bytes: &[u8],
) -> Result<(Vec<PageStamp>, &[u8]), ReadError>
    ensures { Gives (λ x. (x.0.items, x.1.now)) result (page_list_at total 0 count bytes.now) }
{
    let mut pages = Vec::new(alloc);
    let mut least = 0;
    let mut rest = bytes;
    for _ in 0..count {
        let (page, behind) = read_page_stamp(total, least, rest)?;
        pages.push(page)?;
        least = u64::from(page.page.0) + 1;
        rest = behind;
    }
    Ok((pages, rest))
}

/// Reads a list of pages with their stamps, which ascend strictly by page. Memory is taken for the
/// pages that are there.
#[tactic(auto, unfolding(crate::specs::Reading::page_stamps_at))]
pub fn read_page_stamps(
    alloc: Global,
    total: usize,
    bytes: &[u8],
) -> Result<(PageStampList, &[u8]), ReadError>
    ensures { Gives (λ x. (x.0, x.1.now)) result (page_stamps_at total bytes.now) }
{
    let (count, rest) = read_u32(total, 0, u32::MAX, bytes)?;
    let (pages, rest) = read_page_list(alloc, total, count, rest)?;
    Ok((ItemList::from_vec(pages), rest))
}

fn put_page_stamp(out: &mut Vec<u8>, page: PageStamp) -> Result<(), AllocError>
    ensures { OnOk result (out.new.items ≡ out.old.items ++ page_stamp_bytes page) }
{
    put_u32(out, page.page.0)?;
    put_u64(out, page.stamp.0)?;
    Ok(())
}

/// Writes a list of pages with their stamps.
pub fn put_page_stamps(out: &mut Vec<u8>, pages: &[PageStamp]) -> Result<(), AllocError>
    requires { length pages.now ≤ 4294967295 }
    ensures { OnOk result (out.new.items ≡ out.old.items ++ page_stamps_bytes pages.now) }
{
    put_u32(out, pages.len() as u32)?;
    for page in pages {
        put_page_stamp(out, *page)?;
    }
    Ok(())
}
