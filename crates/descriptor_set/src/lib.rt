//! Reads a FileDescriptorSet (descriptor.proto, google/api/http.proto) as `protoc
//! --descriptor_set_out` writes it.
//!
//! The set is decoded as a message whose types have the listed fields alone, so that all others are
//! skipped, and its value is taken into structs. What is declared is not judged here. Begin with
//! `read_set`.
#![tactic(auto)]

mod described;
mod descriptor_types;
pub mod examples;
mod fault;
mod field_contents;
pub mod laws;
mod message_reader;
mod rule_reader;
mod service_reader;
mod set_reader;

pub use descriptors::{
    EnumInfo, FieldInfo, FileInfo, FileSet, HttpInfo, MessageInfo, PatternInfo, RpcInfo,
    ServiceInfo,
};
pub use fault::SetFault;
pub use set_reader::{MAX_SET_BYTES, read_set};
