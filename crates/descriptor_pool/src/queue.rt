//! The messages that the methods of a set reach, in the order of a queue.
ghost use Rattle.std.specs.Prelude.{◌≡◌, fold, option_map, slice_get, IfOk, OnOk};
ghost use Rattle.std.specs.List.{flat_map};
ghost use Rattle.descriptor_pool.specs.QueueSteps.{Sees, taken_one};
ghost use Rattle.descriptor_pool.specs.ReachableTypes.{fields_join, joins, method_roots, reachable, with_joined};

use crate::declared_types::SetTypes;
use crate::method_path::MethodPath;
use crate::set_methods::BoundMethod;
use base::NoMemory;
use descriptors::FieldInfo;
use std::alloc::Global;
use std::collections::BTreeSet;
use std::marker::Model;

/// A message that is reached.
#[derive(Drop)]
pub struct Joined<'a> {
    /// Its index among the messages of the set.
    pub message: usize,
    /// The gRPC path of the method through which it joined the queue.
    pub path: MethodPath<'a>,
}

impl<'a> Model for Joined<'a> {
    ghost use Rattle.descriptor_pool.specs.ReachableTypes.{Joined as Seen};

    ghost Value = { Seen };

    ghost view = { λ j. record { message = j.message; path = j.path } };
}

/// Puts a message at the end of the queue, where there is one and it never joined.
fn join<'a>(
    queue: &mut Vec<Joined<'a>>,
    seen: &mut BTreeSet<usize>,
    path: &MethodPath<'a>,
    message: Option<usize>,
) -> Result<(), NoMemory>
    requires { Sees seen.old queue.old.items }
    ensures queue { OnOk result (queue.new.items ≡ fold with_joined queue.old.items (joins path.now message)) }
    ensures seen { OnOk result (Sees seen.new queue.new.items) }
{
    match message {
        Some(message) => {
            if seen.insert(message)? {
                let path = path.copy();
                queue.push(Joined { message, path })?;
            }
            Ok(())
        }
        None => Ok(()),
    }
}

/// Puts the input and output of each method into the queue.
fn join_methods<'a>(
    types: &SetTypes<'a>,
    queue: &mut Vec<Joined<'a>>,
    seen: &mut BTreeSet<usize>,
    methods: &[BoundMethod<'a>],
) -> Result<(), NoMemory>
    requires { Sees seen.old queue.old.items }
    ensures queue { OnOk result (queue.new.items ≡ fold with_joined queue.old.items (flat_map (method_roots types.now) methods.now)) }
    ensures seen { OnOk result (Sees seen.new queue.new.items) }
{
    for method in methods {
        let path = &method.path;
        join(
            queue,
            seen,
            path,
            types.message_named(method.rpc.input_type.as_str()),
        )?;
        join(
            queue,
            seen,
            path,
            types.message_named(method.rpc.output_type.as_str()),
        )?;
    }
    Ok(())
}

/// Puts the messages of fields into the queue.
fn join_fields<'a>(
    types: &SetTypes<'a>,
    queue: &mut Vec<Joined<'a>>,
    seen: &mut BTreeSet<usize>,
    path: &MethodPath<'a>,
    fields: &'a [FieldInfo],
) -> Result<(), NoMemory>
    requires { Sees seen.old queue.old.items }
    ensures queue { OnOk result (queue.new.items ≡ fold with_joined queue.old.items (fields_join types.now path.now fields.now)) }
    ensures seen { OnOk result (Sees seen.new queue.new.items) }
{
    for field in fields {
        let value = types.value_field(field);
        join(queue, seen, path, types.field_message(value))?;
    }
    Ok(())
}

/// The path and the message at an index of the queue.
fn item_at<'a>(queue: &[Joined<'a>], at: usize) -> Option<(MethodPath<'a>, usize)>
    ensures { option_map (λ x. record { message = x.1; path = x.0 }) result ≡ slice_get queue.now at }
{
    match queue.get(at) {
        Some(joined) => Some((joined.path.copy(), joined.message)),
        None => None,
    }
}

/// Takes the message at an index of the queue, where there is one.
fn take_one<'a>(
    types: &SetTypes<'a>,
    queue: &mut Vec<Joined<'a>>,
    seen: &mut BTreeSet<usize>,
    at: usize,
) -> Result<(), NoMemory>
    requires { Sees seen.old queue.old.items }
    ensures queue { OnOk result (queue.new.items ≡ taken_one types.now queue.old.items at) }
    ensures seen { OnOk result (Sees seen.new queue.new.items) }
{
    match item_at(queue.as_slice(), at) {
        Some((path, message)) => join_fields(types, queue, seen, &path, types.fields_at(message)),
        None => Ok(()),
    }
}

/// The messages that the methods reach, in the order in which the queue takes them.
pub fn reachable<'a>(
    alloc: Global,
    types: &SetTypes<'a>,
    methods: &[BoundMethod<'a>],
) -> Result<Vec<Joined<'a>>, NoMemory>
    ensures { IfOk result (λ js. js.items ≡ reachable types.now methods.now) }
{
    let mut queue = Vec::new(alloc);
    let mut seen = BTreeSet::new(alloc);
    join_methods(types, &mut queue, &mut seen, methods)?;
    let len = types.messages().len();
    for at in 0..len {
        take_one(types, &mut queue, &mut seen, at)?;
    }
    queue.truncate(len);
    Ok(queue)
}
