//! What a descriptor set declares (descriptor.proto, google/api/http.proto). An absent text is empty,
//! an absent number 0 and an absent truth value false, but where an Option tells absence.

use base::{List, Text};
use message_types::EnumValue;

/// FileDescriptorSet.
#[derive(Drop)]
pub struct FileSet {
    /// The files, in order.
    pub files: List<FileInfo>,
}

/// FileDescriptorProto.
#[derive(Drop)]
pub struct FileInfo {
    /// The file's name.
    pub name: Text,
    /// The package, without dots around it.
    pub package: Text,
    /// The messages that are declared at the top.
    pub message_type: List<MessageInfo>,
    /// The enums that are declared at the top.
    pub enum_type: List<EnumInfo>,
    /// The services.
    pub service: List<ServiceInfo>,
    /// The extensions that are declared at the top.
    pub extension: List<FieldInfo>,
    /// `proto3`, `proto2` or empty for proto2, or `editions`.
    pub syntax: Text,
    /// The edition's number.
    pub edition: i32,
}

/// DescriptorProto, with MessageOptions.
#[derive(Drop)]
pub struct MessageInfo {
    /// The name, without those of the file's package and of the messages around it.
    pub name: Text,
    /// The fields, in order.
    pub field: List<FieldInfo>,
    /// The messages that are declared in it.
    pub nested_type: List<MessageInfo>,
    /// The enums that are declared in it.
    pub enum_type: List<EnumInfo>,
    /// The extensions that are declared in it.
    pub extension: List<FieldInfo>,
    /// The option message_set_wire_format.
    pub message_set_wire_format: bool,
    /// The option map_entry.
    pub map_entry: bool,
    /// The names of the oneofs, in order.
    pub oneof_decl: List<Text>,
}

/// FieldDescriptorProto, with FieldOptions.
#[derive(Drop)]
pub struct FieldInfo {
    /// The name.
    pub name: Text,
    /// The message that an extension extends.
    pub extendee: Text,
    /// The field number.
    pub number: i32,
    /// 1 optional, 2 required, 3 repeated.
    pub label: i32,
    /// The type, by its number from 1 double to 18 sint64.
    pub type_number: i32,
    /// The full name of a message or an enum, with a leading dot.
    pub type_name: Text,
    /// The option packed.
    pub packed: Option<bool>,
    /// The index of the oneof of which it is a member.
    pub oneof_index: Option<i32>,
    /// The name in JSON.
    pub json_name: Option<Text>,
    /// True for an `optional` field of a proto3 file.
    pub proto3_optional: bool,
}

/// EnumDescriptorProto.
#[derive(Drop)]
pub struct EnumInfo {
    /// The name.
    pub name: Text,
    /// The values, in order.
    pub value: List<EnumValue>,
}

/// ServiceDescriptorProto.
#[derive(Drop)]
pub struct ServiceInfo {
    /// The name.
    pub name: Text,
    /// The methods, in order.
    pub method: List<RpcInfo>,
}

/// MethodDescriptorProto, with MethodOptions.
#[derive(Drop)]
pub struct RpcInfo {
    /// The name.
    pub name: Text,
    /// The full name of the request's message, with a leading dot.
    pub input_type: Text,
    /// The full name of the response's message, with a leading dot.
    pub output_type: Text,
    /// The annotation google.api.http.
    pub http: Option<HttpInfo>,
    /// True where the client sends a stream of messages.
    pub client_streaming: bool,
    /// True where the server sends a stream of messages.
    pub server_streaming: bool,
}

/// google.api.HttpRule.
#[derive(Drop)]
pub struct HttpInfo {
    /// The method with its template: the last one that is set.
    pub pattern: Option<PatternInfo>,
    /// Which field the body is: empty for none, `*` for the whole message.
    pub body: Text,
    /// Further rules of the same method.
    pub additional_bindings: List<HttpInfo>,
    /// Which field of the response is answered: empty for the whole message.
    pub response_body: Text,
}

/// The pattern of a google.api.HttpRule: an HTTP method and a path template.
#[derive(Drop)]
pub enum PatternInfo {
    /// GET.
    Get(Text),
    /// PUT.
    Put(Text),
    /// POST.
    Post(Text),
    /// DELETE.
    Delete(Text),
    /// PATCH.
    Patch(Text),
    /// Another method, and the template.
    Custom(Text, Text),
}
