//! Services and their methods (descriptor.proto), by their values.
ghost use Rattle.std.specs.Prelude.{◌≡◌, map, IfOk};
ghost use Rattle.descriptor_set.specs.DescriptorFields.{method_info, service_info};

use crate::field_contents::{is_set, messages, text_or_empty};
use crate::rule_reader::read_http;
use base::{List, NoMemory};
use descriptors::{RpcInfo, ServiceInfo};
use schema::Value;
use std::alloc::Global;

/// MethodDescriptorProto.
fn read_method(alloc: Global, value: &Value) -> Result<RpcInfo, NoMemory>
    ensures { IfOk result (λ read. read ≡ method_info value.now) }
{
    Ok(RpcInfo {
        name: text_or_empty(alloc, value, 1)?,
        input_type: text_or_empty(alloc, value, 2)?,
        output_type: text_or_empty(alloc, value, 3)?,
        http: read_http(alloc, value)?,
        client_streaming: is_set(value, 5),
        server_streaming: is_set(value, 6),
    })
}

/// The methods of a service.
fn read_methods(alloc: Global, values: &[&Value]) -> Result<List<RpcInfo>, NoMemory>
    ensures { IfOk result (λ read. read ≡ map method_info (map (λ v. v.now) values.now)) }
{
    let mut read = List::new(alloc);
    for value in values {
        read.push(read_method(alloc, value)?)?;
    }
    Ok(read)
}

/// ServiceDescriptorProto.
fn read_service(alloc: Global, value: &Value) -> Result<ServiceInfo, NoMemory>
    ensures { IfOk result (λ read. read ≡ service_info value.now) }
{
    let methods = messages(alloc, value, 2)?;
    Ok(ServiceInfo {
        name: text_or_empty(alloc, value, 1)?,
        method: read_methods(alloc, methods.as_slice())?,
    })
}

/// The services of a file.
pub(crate) fn read_services(alloc: Global, values: &[&Value]) -> Result<List<ServiceInfo>, NoMemory>
    ensures { IfOk result (λ read. read ≡ map service_info (map (λ v. v.now) values.now)) }
{
    let mut read = List::new(alloc);
    for value in values {
        read.push(read_service(alloc, value)?)?;
    }
    Ok(read)
}
