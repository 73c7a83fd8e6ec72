//! Files, and the whole set (descriptor.proto).
ghost use Rattle.std.specs.Prelude.{◌≡◌, ◌<◌, ◌↔◌, Err, length, map, IfOk};
ghost use Rattle.descriptor_set.specs.DescriptorFields.{file_info, file_set_of};
ghost use Rattle.descriptor_set.specs.SetReading.{IsReading, set_reading};

use crate::described::{Described, type_id};
use crate::descriptor_types::descriptor_types;
use crate::fault::SetFault;
use crate::field_contents::{int_or_zero, messages, text_or_empty};
use crate::message_reader::{read_enums, read_fields, read_messages};
use crate::service_reader::read_services;
use base::{List, NoMemory};
use descriptors::{FileInfo, FileSet};
use schema::{MAX_LEVELS, Value};
use std::alloc::Global;
use wire_format::{DecodeFault, decode};

/// The most bytes that a descriptor set may have: 16 MiB, which is past the sets of large companies'
/// whole interfaces.
pub const MAX_SET_BYTES: usize = 16_777_216;

/// FileDescriptorProto.
fn read_file(alloc: Global, value: &Value) -> Result<FileInfo, NoMemory>
    ensures { IfOk result (λ read. read ≡ file_info value.now) }
{
    let declared = messages(alloc, value, 4)?;
    let enums = messages(alloc, value, 5)?;
    let services = messages(alloc, value, 6)?;
    let extensions = messages(alloc, value, 7)?;
    Ok(FileInfo {
        name: text_or_empty(alloc, value, 1)?,
        package: text_or_empty(alloc, value, 2)?,
        message_type: read_messages(alloc, declared.as_slice(), MAX_LEVELS)?,
        enum_type: read_enums(alloc, enums.as_slice())?,
        service: read_services(alloc, services.as_slice())?,
        extension: read_fields(alloc, extensions.as_slice())?,
        syntax: text_or_empty(alloc, value, 12)?,
        edition: int_or_zero(value, 14),
    })
}

/// The files of a set.
fn read_files(alloc: Global, values: &[&Value]) -> Result<List<FileInfo>, NoMemory>
    ensures { IfOk result (λ read. read ≡ map file_info (map (λ v. v.now) values.now)) }
{
    let mut read = List::new(alloc);
    for value in values {
        read.push(read_file(alloc, value)?)?;
    }
    Ok(read)
}

/// FileDescriptorSet.
fn read_file_set(alloc: Global, value: &Value) -> Result<FileSet, NoMemory>
    ensures { IfOk result (λ read. read ≡ file_set_of value.now) }
{
    let files = messages(alloc, value, 1)?;
    Ok(FileSet {
        files: read_files(alloc, files.as_slice())?,
    })
}

/// Reads the bytes of a FileDescriptorSet: what the listed fields hold, all others being skipped. Of
/// bytes that are too long nothing is read; else the first fault counts, in every payload of a listed
/// message field, also of one that a later record replaces.
#[tactic(auto, unfolding(crate::specs::SetReading::set_reading))]
pub fn read_set(alloc: Global, bytes: &[u8]) -> Result<FileSet, SetFault>
    ensures read { IsReading result (set_reading bytes.now) }
    ensures long { (result ≡ Err SetFault.TooLong) ↔ (MAX_SET_BYTES < length bytes.now) }
{
    if bytes.len() > MAX_SET_BYTES {
        return Err(SetFault::TooLong);
    }
    let types = descriptor_types(alloc)?;
    match decode(alloc, &types, type_id(Described::Set), bytes) {
        Ok(value) => Ok(read_file_set(alloc, &value)?),
        Err(DecodeFault::Wire(fault)) => Err(SetFault::Wire(fault)),
        Err(DecodeFault::NotUtf8(place)) => Err(SetFault::NotUtf8(place)),
        Err(DecodeFault::NoMemory) => Err(SetFault::NoMemory),
    }
}
