//! Numbers of descriptor.proto and google/api/http.proto that more than one crate speaks of.

/// FieldDescriptorProto.Type: a double.
pub const TYPE_DOUBLE: i32 = 1;

/// FieldDescriptorProto.Type: a float.
pub const TYPE_FLOAT: i32 = 2;

/// FieldDescriptorProto.Type: an int64.
pub const TYPE_INT64: i32 = 3;

/// FieldDescriptorProto.Type: a uint64.
pub const TYPE_UINT64: i32 = 4;

/// FieldDescriptorProto.Type: an int32.
pub const TYPE_INT32: i32 = 5;

/// FieldDescriptorProto.Type: a fixed64.
pub const TYPE_FIXED64: i32 = 6;

/// FieldDescriptorProto.Type: a fixed32.
pub const TYPE_FIXED32: i32 = 7;

/// FieldDescriptorProto.Type: a bool.
pub const TYPE_BOOL: i32 = 8;

/// FieldDescriptorProto.Type: a string.
pub const TYPE_STRING: i32 = 9;

/// FieldDescriptorProto.Type: a group, which proto3 has not.
pub const TYPE_GROUP: i32 = 10;

/// FieldDescriptorProto.Type: a message.
pub const TYPE_MESSAGE: i32 = 11;

/// FieldDescriptorProto.Type: bytes.
pub const TYPE_BYTES: i32 = 12;

/// FieldDescriptorProto.Type: a uint32.
pub const TYPE_UINT32: i32 = 13;

/// FieldDescriptorProto.Type: an enum.
pub const TYPE_ENUM: i32 = 14;

/// FieldDescriptorProto.Type: an sfixed32.
pub const TYPE_SFIXED32: i32 = 15;

/// FieldDescriptorProto.Type: an sfixed64.
pub const TYPE_SFIXED64: i32 = 16;

/// FieldDescriptorProto.Type: a sint32, by zigzag.
pub const TYPE_SINT32: i32 = 17;

/// FieldDescriptorProto.Type: a sint64, by zigzag.
pub const TYPE_SINT64: i32 = 18;

/// FieldDescriptorProto.Label: one value at most, or one.
pub const LABEL_OPTIONAL: i32 = 1;

/// FieldDescriptorProto.Label: one value, which proto3 has not.
pub const LABEL_REQUIRED: i32 = 2;

/// FieldDescriptorProto.Label: any number of values.
pub const LABEL_REPEATED: i32 = 3;

/// The number of the key in an entry of a map (the encoding guide, "Maps").
pub const ENTRY_KEY: i32 = 1;

/// The number of the value in an entry of a map (the encoding guide, "Maps").
pub const ENTRY_VALUE: i32 = 2;

/// The number of the extension `google.api.http` of MethodOptions (google/api/annotations.proto).
pub const HTTP_RULE: u32 = 72_295_728;
