//! Images, groups and messages, written and read again and again.
ghost use Rattle.std.specs.Prelude.{◌≡◌, ◌*◌, ◌≤◌, length, IfOk};
ghost use Rattle.page_image.specs.Spelling.{image_bytes, IsImage};
ghost use Rattle.log_record.specs.Spelling.{group_bytes, IsGroup};
ghost use Rattle.node_messages.specs.Spelling.{message_bytes, IsMessage};
ghost use Rattle.round_works.specs.Samples.{length_of};

use crate::{Failure, Sample, bytes};
use std::alloc::Global;
use tm_base::{Group, Image, Mem, Message};
use wire_fields::ReadError;

/// Writes an image so many times. Gives the number of bytes written.
pub fn write_image(alloc: Global, image: &Image, rounds: u32) -> Mem<u64>
    requires { IsImage image.now }
    ensures { IfOk result (λ sum. sum ≡ rounds * length (image_bytes image.now)) }
{
    let mut sum: u64 = 0;
    for _ in 0..rounds {
        sum += page_image::encode(alloc, image)?.len() as u64;
    }
    Ok(sum)
}

/// Reads an image so many times. Gives the sum of its page's numbers.
pub fn read_image(alloc: Global, image: &Image, bytes: &[u8], rounds: u32) -> Result<u64, ReadError>
    requires spelled { IsImage image.now }
    requires so { bytes.now ≡ image_bytes image.now }
    ensures { IfOk result (λ sum. sum ≡ rounds * image.now.page.0) }
{
    let mut sum: u64 = 0;
    for _ in 0..rounds {
        sum += page_image::decode(alloc, bytes)?.page.0 as u64;
    }
    Ok(sum)
}

/// Writes a group so many times. Gives the number of bytes written.
pub fn write_group(alloc: Global, group: &Group, rounds: u32) -> Mem<u64>
    requires { IsGroup 1 group.now }
    ensures { IfOk result (λ sum. sum ≡ rounds * length (group_bytes group.now)) }
{
    let mut sum: u64 = 0;
    for _ in 0..rounds {
        sum += log_record::encode(alloc, group)?.len() as u64;
    }
    Ok(sum)
}

/// Reads a group so many times. Gives the sum of its writer's numbers.
pub fn read_group(alloc: Global, group: &Group, bytes: &[u8], rounds: u32) -> Result<u64, ReadError>
    requires spelled { IsGroup 1 group.now }
    requires so { bytes.now ≡ group_bytes group.now }
    ensures { IfOk result (λ sum. sum ≡ rounds * group.now.writer.0) }
{
    let mut sum: u64 = 0;
    for _ in 0..rounds {
        sum += log_record::decode(alloc, bytes)?.writer.0 as u64;
    }
    Ok(sum)
}

/// Writes a message of at most 16 MiB so many times. Gives the number of bytes written.
pub fn write_message(alloc: Global, message: &Message, rounds: u32) -> Mem<u64>
    requires spelled { IsMessage message.now }
    requires short { length (message_bytes message.now) ≤ 16777216 }
    ensures { IfOk result (λ sum. sum ≡ rounds * length (message_bytes message.now)) }
{
    let mut sum: u64 = 0;
    for _ in 0..rounds {
        sum += node_messages::encode(alloc, message)?.len() as u64;
    }
    Ok(sum)
}

/// Reads a message so many times. Gives the sum of its stamp's numbers.
pub fn read_message(
    alloc: Global,
    message: &Message,
    bytes: &[u8],
    rounds: u32,
) -> Result<u64, ReadError>
    requires spelled { IsMessage message.now }
    requires so { bytes.now ≡ message_bytes message.now }
    requires early { message.now.stamp.0 ≤ 1 }
    ensures { IfOk result (λ sum. sum ≡ rounds * message.now.stamp.0) }
{
    let mut sum: u64 = 0;
    for _ in 0..rounds {
        sum += node_messages::decode(alloc, bytes)?.stamp.0;
    }
    Ok(sum)
}

/// Messages that are worked on have at most 16 MiB.
const MAX_MESSAGE: usize = 16_777_216;

// Writes the image of these bytes so many times.
fn write_as_image(alloc: Global, bytes: &[u8], rounds: u32) -> Result<u64, Failure>
    ensures { IfOk result (λ sum. sum ≡ rounds * length bytes.now) }
{
    let image = page_image::decode(alloc, bytes)?;
    let sum = write_image(alloc, &image, rounds)?;
    Ok(sum)
}

// Reads these bytes, of an image of page 1, so many times.
fn read_as_image(alloc: Global, bytes: &[u8], rounds: u32) -> Result<u64, Failure>
    ensures { IfOk result (λ sum. sum ≡ rounds) }
{
    let image = page_image::decode(alloc, bytes)?;
    if image.page.0 != 1 {
        return Err(Failure::Refused);
    }
    let sum = read_image(alloc, &image, bytes, rounds)?;
    Ok(sum)
}

// Writes the group of these bytes so many times.
fn write_as_group(alloc: Global, bytes: &[u8], rounds: u32) -> Result<u64, Failure>
    ensures { IfOk result (λ sum. sum ≡ rounds * length bytes.now) }
{
    let group = log_record::decode(alloc, bytes)?;
    let sum = write_group(alloc, &group, rounds)?;
    Ok(sum)
}

// Reads these bytes, of a group of writer 1, so many times.
fn read_as_group(alloc: Global, bytes: &[u8], rounds: u32) -> Result<u64, Failure>
    ensures { IfOk result (λ sum. sum ≡ rounds) }
{
    let group = log_record::decode(alloc, bytes)?;
    if group.writer.0 != 1 {
        return Err(Failure::Refused);
    }
    let sum = read_group(alloc, &group, bytes, rounds)?;
    Ok(sum)
}

// Writes the message of these bytes, at most 16 MiB, so many times.
fn write_as_message(alloc: Global, bytes: &[u8], rounds: u32) -> Result<u64, Failure>
    ensures { IfOk result (λ sum. sum ≡ rounds * length bytes.now) }
{
    let message = node_messages::decode(alloc, bytes)?;
    if bytes.len() > MAX_MESSAGE {
        return Err(Failure::Refused);
    }
    let sum = write_message(alloc, &message, rounds)?;
    Ok(sum)
}

// Reads these bytes, of a message of stamp 1, so many times.
fn read_as_message(alloc: Global, bytes: &[u8], rounds: u32) -> Result<u64, Failure>
    ensures { IfOk result (λ sum. sum ≡ rounds) }
{
    let message = node_messages::decode(alloc, bytes)?;
    if message.stamp.0 != 1 {
        return Err(Failure::Refused);
    }
    let sum = read_message(alloc, &message, bytes, rounds)?;
    Ok(sum)
}

/// Writes a sample's value so many times. Gives the number of bytes written.
pub fn write(alloc: Global, sample: Sample, rounds: u32) -> Result<u64, Failure>
    ensures { IfOk result (λ sum. sum ≡ rounds * length_of sample) }
{
    let bytes = bytes(alloc, sample)?;
    match sample {
        Sample::FullLeaf | Sample::HalfLeaf | Sample::WideLeaf => {
            let sum = write_as_image(alloc, &bytes, rounds)?;
            Ok(sum)
        }
        Sample::SmallGroup => {
            let sum = write_as_group(alloc, &bytes, rounds)?;
            Ok(sum)
        }
        Sample::Grant | Sample::Groups => {
            let sum = write_as_message(alloc, &bytes, rounds)?;
            Ok(sum)
        }
    }
}

/// Reads a sample's bytes so many times. Gives the sum of a number that each value has, which is 1: an image's page, a
/// group's writer, a message's stamp.
pub fn read(alloc: Global, sample: Sample, rounds: u32) -> Result<u64, Failure>
    ensures { IfOk result (λ sum. sum ≡ rounds) }
{
    let bytes = bytes(alloc, sample)?;
    match sample {
        Sample::FullLeaf | Sample::HalfLeaf | Sample::WideLeaf => {
            let sum = read_as_image(alloc, &bytes, rounds)?;
            Ok(sum)
        }
        Sample::SmallGroup => {
            let sum = read_as_group(alloc, &bytes, rounds)?;
            Ok(sum)
        }
        Sample::Grant | Sample::Groups => {
            let sum = read_as_message(alloc, &bytes, rounds)?;
            Ok(sum)
        }
    }
}
