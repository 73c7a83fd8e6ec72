//! The line on standard error of a command that did not end with Done.
ghost use Rattle.std.specs.List.{flat_map};
ghost use Rattle.std.specs.Prelude.{◌≡◌, ◌≤◌, ◌++◌, codes, OnOk, OnErr};
ghost use Rattle.gate_world.specs.Causes.{Rose};
ghost use Rattle.gate_world.specs.Sinks.{Gains, GainsPart};
ghost use Rattle.gateway_run.specs.DescriptorLines.{descriptor_line};
ghost use Rattle.gateway_run.specs.Outcomes.{stop_line};
ghost use Rattle.gateway_run.specs.RefusalLines.{refusal_line};

use crate::descriptor_fault::DescriptorFault;
use crate::status::Stop;
use base::Text;
use gate_world::{Sink, WriteFailed, write_all};
use itoa::Buffer;
use schema_link::LinkKind;
use transcoding::RequestRefusal;
use wire_records::WireFault;

/// Writes texts one after another. Where a write fails, the sink has gained a prefix of them,
/// joined, and not all.
fn write_texts<O: Sink>(out: &mut O, texts: &[&str]) -> Result<(), WriteFailed>
    ensures written { OnOk result (Gains (O.written out.old) (O.written out.new) (flat_map (λ t. t.now) texts.now)) }
    ensures part { OnErr result (GainsPart (O.written out.old) (O.written out.new) (flat_map (λ t. t.now) texts.now)) }
    ensures later { O.faults out.old ≤ O.faults out.new }
    ensures failed { OnErr result (Rose (O.faults out.old) (O.faults out.new)) }
{
    match texts.split_first() {
        Some((first, rest)) => {
            write_all(out, first.as_bytes())?;
            write_texts(out, rest)
        }
        None => Ok(()),
    }
}

/// Writes why a descriptor set is not linked.
fn write_link_line<'a, O: Sink>(
    err: &mut O,
    kind: LinkKind,
    name: &'a Text,
    second: &'a Text,
) -> Result<(), WriteFailed>
    ensures written { OnOk result (Gains (O.written err.old) (O.written err.new) (descriptor_line (DescriptorFault.Unlinked kind name.now second.now))) }
    ensures part { OnErr result (GainsPart (O.written err.old) (O.written err.new) (descriptor_line (DescriptorFault.Unlinked kind name.now second.now))) }
    ensures later { O.faults err.old ≤ O.faults err.new }
    ensures failed { OnErr result (Rose (O.faults err.old) (O.faults err.new)) }
{
    let kind: &'a str = kind.name();
    if second.is_empty() {
        let texts = ["descriptors: ", kind, " ", name.as_str(), "\n"];
        return write_texts(err, &texts);
    }
    let texts = [
        "descriptors: ",
        kind,
        " ",
        name.as_str(),
        " ",
        second.as_str(),
        "\n",
    ];
    write_texts(err, &texts)
}

/// Writes that a record of a descriptor set is wrong.
fn write_wire_line<O: Sink>(err: &mut O, fault: WireFault) -> Result<(), WriteFailed>
    ensures written { OnOk result (Gains (O.written err.old) (O.written err.new) (descriptor_line (DescriptorFault.Wire fault))) }
    ensures part { OnErr result (GainsPart (O.written err.old) (O.written err.new) (descriptor_line (DescriptorFault.Wire fault))) }
    ensures later { O.faults err.old ≤ O.faults err.new }
    ensures failed { OnErr result (Rose (O.faults err.old) (O.faults err.new)) }
{
    let mut buffer = Buffer::new();
    let digits = buffer.format(fault.place);
    let kind = fault.kind.name();
    let texts = ["descriptors: Wire at ", digits, " ", kind, "\n"];
    write_texts(err, &texts)
}

/// Writes that a text of a descriptor set is not UTF-8.
fn write_utf8_line<O: Sink>(err: &mut O, place: u64) -> Result<(), WriteFailed>
    ensures written { OnOk result (Gains (O.written err.old) (O.written err.new) (descriptor_line (DescriptorFault.NotUtf8 place))) }
    ensures part { OnErr result (GainsPart (O.written err.old) (O.written err.new) (descriptor_line (DescriptorFault.NotUtf8 place))) }
    ensures later { O.faults err.old ≤ O.faults err.new }
    ensures failed { OnErr result (Rose (O.faults err.old) (O.faults err.new)) }
{
    let mut buffer = Buffer::new();
    let digits = buffer.format(place);
    let texts = ["descriptors: NotUtf8 at ", digits, "\n"];
    write_texts(err, &texts)
}

/// Writes why a descriptor set is refused.
fn write_descriptor_line<O: Sink>(err: &mut O, fault: &DescriptorFault) -> Result<(), WriteFailed>
    ensures written { OnOk result (Gains (O.written err.old) (O.written err.new) (descriptor_line fault.now)) }
    ensures part { OnErr result (GainsPart (O.written err.old) (O.written err.new) (descriptor_line fault.now)) }
    ensures later { O.faults err.old ≤ O.faults err.new }
    ensures failed { OnErr result (Rose (O.faults err.old) (O.faults err.new)) }
{
    match fault {
        DescriptorFault::Wire(wire) => write_wire_line(err, *wire),
        DescriptorFault::NotUtf8(place) => write_utf8_line(err, *place),
        DescriptorFault::TooLong => write_all(err, "descriptors: TooLong\n".as_bytes()),
        DescriptorFault::Unlinked(kind, name, second) => write_link_line(err, *kind, name, second),
    }
}

/// Writes why a request is refused.
fn write_refusal_line<O: Sink>(err: &mut O, refusal: RequestRefusal) -> Result<(), WriteFailed>
    ensures written { OnOk result (Gains (O.written err.old) (O.written err.new) (refusal_line refusal)) }
    ensures part { OnErr result (GainsPart (O.written err.old) (O.written err.new) (refusal_line refusal)) }
    ensures later { O.faults err.old ≤ O.faults err.new }
    ensures failed { OnErr result (Rose (O.faults err.old) (O.faults err.new)) }
{
    let (mut statuses, mut numbers) = (Buffer::new(), Buffer::new());
    let status = statuses.format(refusal.status());
    let cause = refusal.cause();
    let Some(detail) = refusal.detail() else {
        let texts = ["refused ", status, " ", cause, "\n"];
        return write_texts(err, &texts);
    };
    let number = numbers.format(detail.at);
    let fault = detail.fault.text();
    let texts = ["refused ", status, " ", cause, number, ": ", fault, "\n"];
    write_texts(err, &texts)
}

/// Writes the line of a command that stopped. Where a write fails, `err` has gained a prefix of it, and not all.
pub(crate) fn write_line<O: Sink>(err: &mut O, stop: &Stop) -> Result<(), WriteFailed>
    ensures written { OnOk result (Gains (O.written err.old) (O.written err.new) (stop_line stop.now)) }
    ensures part { OnErr result (GainsPart (O.written err.old) (O.written err.new) (stop_line stop.now)) }
    ensures later { O.faults err.old ≤ O.faults err.new }
    ensures failed { OnErr result (Rose (O.faults err.old) (O.faults err.new)) }
{
    match stop {
        Stop::Usage => write_all(err, "usage\n".as_bytes()),
        Stop::Descriptors(fault) => write_descriptor_line(err, fault),
        Stop::ReadFault => write_all(err, "read fault\n".as_bytes()),
        Stop::WriteFault => write_all(err, "write fault\n".as_bytes()),
        Stop::NoMemory => write_all(err, "out of memory\n".as_bytes()),
        Stop::Refused(refusal) => write_refusal_line(err, *refusal),
    }
}
