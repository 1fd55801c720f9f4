//! Images as bytes.
ghost use Rattle.std.specs.Prelude.{◌≡◌, ◌++◌, length, IfOk, OnOk, Ok};
ghost use Rattle.wire_fields.specs.Reading.{Gives};
ghost use Rattle.tm_data.specs.declared.image.Image.{Image as One};
ghost use Rattle.tm_base.specs.Sizes.{size};
ghost use Rattle.page_image.specs.Spelling.{image_bytes, IsImage, last_stamp};
ghost use Rattle.page_image.specs.Reading.{image_at, image_of};

use crate::body::{kind_of, put_body, read_body};
use std::alloc::{AllocError, Global};
use tm_base::{ByteList, Image, MAX_IMAGE, MAX_STAMP, Mem, Page, Stamp};
use wire_fields::{
    ReadError, check_end, offset, put_u8, put_u32, put_u64, read_kind, read_u32, read_u64,
};

fn last_stamp(kind: u8) -> u64
    ensures { result ≡ last_stamp kind }
{
    if kind == 0 { 0 } else { MAX_STAMP }
}

/// Reads an image from the front of bytes.
#[tactic(auto, unfolding(crate::specs::Reading::image_at))]
pub fn read_image(alloc: Global, total: usize, bytes: &[u8]) -> Result<(Image, &[u8]), ReadError>
    ensures { Gives (λ x. (x.0, x.1.now)) result (image_at total bytes.now) }
{
    let (kind, rest) = read_kind(total, 0, 2, bytes)?;
    let (page, rest) = read_u32(total, 1, u32::MAX, rest)?;
    let (stamp, rest) = read_u64(total, 0, last_stamp(kind), rest)?;
    let (body, rest) = read_body(alloc, total, kind, rest)?;
    if bytes.len().saturating_sub(rest.len()) > MAX_IMAGE {
        return Err(ReadError::NotCanonical {
            at: offset(total, bytes),
        });
    }
    let image = Image {
        page: Page(page),
        stamp: Stamp(stamp),
        body,
    };
    Ok((image, rest))
}

/// Writes an image.
pub fn put_image(out: &mut Vec<u8>, image: &Image) -> Result<(), AllocError>
    requires { IsImage image.now }
    ensures { OnOk result (out.new.items ≡ out.old.items ++ image_bytes image.now) }
{
    put_u8(out, kind_of(&image.body))?;
    put_u32(out, image.page.0)?;
    put_u64(out, image.stamp.0)?;
    put_body(out, &image.body)?;
    Ok(())
}

#[tactic(auto, unfolding(crate::specs::Reading::image_of))]
fn read_whole(alloc: Global, bytes: &[u8]) -> Result<Image, ReadError>
    ensures { Gives (λ x. x) result (image_of bytes.now) }
{
    let total = bytes.len();
    let (image, rest) = read_image(alloc, total, bytes)?;
    check_end(total, rest)?;
    Ok(image)
}

/// The image that the bytes spell, all of the bytes.
///
/// Refuses other bytes by the cause and the offset of their first wrong field. Memory is taken for what
/// the bytes have, and not for what they claim to have.
pub fn decode(alloc: Global, bytes: &[u8]) -> Result<Image, ReadError>
    // What is read is spelled so.
    ensures found { IfOk result (λ i. IsImage i × (bytes.now ≡ image_bytes i)) }
    // What is spelled so is read, unless memory runs out.
    ensures only { (i : One) → IsImage i → bytes.now ≡ image_bytes i → Gives (λ x. x) result (Ok i) }
    // Which fault it is.
    ensures exact { Gives (λ x. x) result (image_of bytes.now) }
{
    read_whole(alloc, bytes)
}

/// The one spelling of the image.
pub fn encode(alloc: Global, image: &Image) -> Mem<ByteList>
    requires { IsImage image.now }
    ensures spelling { IfOk result (λ bytes. bytes ≡ image_bytes image.now) }
    ensures told { IfOk result (λ bytes. length bytes ≡ size image.now) }
{
    let mut out = Vec::new(alloc);
    put_image(&mut out, image)?;
    Ok(ByteList::from_vec(out))
}
