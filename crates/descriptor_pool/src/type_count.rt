//! How many messages and enums a set declares, counted before anything is named.
ghost use Rattle.std.specs.Prelude.{◌≡◌, ◌-◌, count_by, length, nat_le, List, ℕ};
ghost use Rattle.descriptor_pool.specs.DeclaredNames.{declarations, declared_in, file_declarations, is_type, messages_in};

use descriptors::{FileInfo, FileSet, MessageInfo};

/// What is left of a number when a message, what is nested in it and its enums are counted off.
#[cycle(count)]
fn less_message(left: usize, message: &MessageInfo) -> usize
    ensures { (syntax scope : List ℕ) → result ≡ left - count_by is_type (declared_in syntax message.now scope) }
{
    let rest = left
        .saturating_sub(1)
        .saturating_sub(message.enum_type.len());
    less_messages(rest, message.nested_type.as_slice())
}

/// What is left of a number when messages, with all that is in them, are counted off.
#[cycle(count)]
fn less_messages(left: usize, messages: &[MessageInfo]) -> usize
    ensures { (syntax scope : List ℕ) → result ≡ left - count_by is_type (messages_in syntax scope messages.now) }
{
    let mut rest = left;
    for message in messages {
        rest = less_message(rest, message);
    }
    rest
}

/// What is left of a number when the messages and enums of a file are counted off.
fn less_file(left: usize, file: &FileInfo) -> usize
    ensures { result ≡ left - count_by is_type (file_declarations file.now) }
{
    less_messages(left, file.message_type.as_slice()).saturating_sub(file.enum_type.len())
}

/// True where a set declares at least so many messages and enums, those in messages among them. They
/// are counted without their names, and nothing is allocated.
pub fn has_types(set: &FileSet, many: usize) -> bool
    ensures { result ≡ nat_le many (count_by is_type (declarations set.now)) }
{
    let mut rest = many;
    for file in set.files.as_slice() {
        rest = less_file(rest, file);
    }
    rest == 0
}
