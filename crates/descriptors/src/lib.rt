//! What a FileDescriptorSet declares (descriptor.proto, google/api/http.proto), as plain structs, and the
//! numbers that stand in it.
//!
//! Nothing here reads bytes or judges what is declared. Begin with `FileSet`.
#![tactic(auto)]

pub mod descriptor_numbers;
mod file_set;

pub use file_set::{
    EnumInfo, FieldInfo, FileInfo, FileSet, HttpInfo, MessageInfo, PatternInfo, RpcInfo,
    ServiceInfo,
};
