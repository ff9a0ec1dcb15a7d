// What a field says, by its tag and the shape of its content. Each case borrows its content from the sheet.
ghost use Rattle.std.specs.Prelude.{◌≡◌, Some};
ghost use Rattle.std.specs.Option.{option_map};
ghost use Rattle.sheets.specs.Fields.{field_of, number_of, end_of, transition_of, interface_of, entry_of, instance_of, connection_of};
ghost use Rattle.sheets.specs.Shown.{said, shown_entry};
ghost use Rattle.sheets.specs.Reading.{as_interface, as_amounts, as_actions, as_transition, as_entry, as_instance, as_connection};
ghost use Rattle.sheets.specs.Parts.{raw};

use crate::part::Part;
use crate::tag::Tag;
use crate::width::Width;
use crate::words::{Connection, End, Interface, Kind, Transition};

#[derive(Clone, Copy)]
pub enum Field<'a> {
    Interface(Interface),
    // one after another, each as many bytes as the width
    Amounts(&'a [u8]),
    // two bytes for each action of a state
    Actions(&'a [u8]),
    Transition(Transition),
    // an amount's bytes, then one count for each output
    Entry { event: u8, rest: &'a [u8] },
    // the number of the instance's block
    Instance(u8),
    Connection(Connection),
}

// One entry of a service block: a run of its event may cost the amount and send each output so often.
#[derive(Clone, Copy)]
pub struct ServiceEntry<'a> {
    pub event: u8,
    pub amount: &'a [u8],
    pub counts: &'a [u8],
}

// A number in one byte, where 255 stands for none, as the format has it.
pub(crate) fn optional(byte: u8) -> Option<u8>
    ensures { result ≡ number_of byte }
{
    (byte != 255).then_some(byte)
}

// Two bytes, where no instance stands for the composite itself.
fn end(instance: u8, port: u8) -> End
    ensures { result ≡ end_of instance port }
{
    match optional(instance) {
        Some(instance) => End::Inside { instance, port },
        None => End::Outside { port },
    }
}

fn interface<'a>(content: &'a [u8]) -> Option<Field<'a>>
    ensures { option_map said result ≡ interface_of content.now }
{
    let [byte, inputs, outputs] = content else {
        return None;
    };
    let kind = Kind::try_from(*byte).ok()?;
    Some(Field::Interface(Interface {
        kind,
        inputs: *inputs,
        outputs: *outputs,
    }))
}

fn transition<'a>(content: &'a [u8]) -> Option<Field<'a>>
    ensures { option_map said result ≡ transition_of content.now }
{
    let [source, destination, event] = content else {
        return None;
    };
    Some(Field::Transition(Transition {
        source: *source,
        destination: *destination,
        event: optional(*event),
    }))
}

fn entry<'a>(content: &'a [u8]) -> Option<Field<'a>>
    ensures { option_map said result ≡ entry_of content.now }
{
    let [event, rest @ ..] = content else {
        return None;
    };
    Some(Field::Entry {
        event: *event,
        rest,
    })
}

fn instance<'a>(content: &'a [u8]) -> Option<Field<'a>>
    ensures { option_map said result ≡ instance_of content.now }
{
    let [block] = content else {
        return None;
    };
    Some(Field::Instance(*block))
}

fn connection<'a>(content: &'a [u8]) -> Option<Field<'a>>
    ensures { option_map said result ≡ connection_of content.now }
{
    let [source, output, target, input] = content else {
        return None;
    };
    Some(Field::Connection(Connection {
        source: end(*source, *output),
        target: end(*target, *input),
    }))
}

impl<'a> Field<'a> {
    pub(crate) fn as_interface(self) -> Option<Interface>
        ensures { result ≡ as_interface (Some (said self.entry)) }
    {
        match self {
            Field::Interface(interface) => Some(interface),
            _ => None,
        }
    }

    // Empty where the field holds no amounts.
    pub(crate) fn as_amounts(self) -> &'a [u8]
        ensures { result.now ≡ as_amounts (Some (said self.entry)) }
    {
        match self {
            Field::Amounts(content) => content,
            _ => &[],
        }
    }

    // Empty where the field holds no actions.
    pub(crate) fn as_actions(self) -> &'a [u8]
        ensures { result.now ≡ as_actions (Some (said self.entry)) }
    {
        match self {
            Field::Actions(content) => content,
            _ => &[],
        }
    }

    pub(crate) fn as_transition(self) -> Option<Transition>
        ensures { result ≡ as_transition (Some (said self.entry)) }
    {
        match self {
            Field::Transition(transition) => Some(transition),
            _ => None,
        }
    }

    // The bytes after the event are the amount, as wide as is said, and then the counts.
    pub(crate) fn as_entry(self, width: Width) -> Option<ServiceEntry<'a>>
        ensures { option_map shown_entry result ≡ as_entry width.bytes (Some (said self.entry)) }
    {
        let Field::Entry { event, rest } = self else {
            return None;
        };
        let (amount, counts) = rest.split_at_checked(width.bytes)?;
        Some(ServiceEntry {
            event,
            amount,
            counts,
        })
    }

    pub(crate) fn as_instance(self) -> Option<u8>
        ensures { result ≡ as_instance (Some (said self.entry)) }
    {
        match self {
            Field::Instance(block) => Some(block),
            _ => None,
        }
    }

    pub(crate) fn as_connection(self) -> Option<Connection>
        ensures { result ≡ as_connection (Some (said self.entry)) }
    {
        match self {
            Field::Connection(connection) => Some(connection),
            _ => None,
        }
    }
}

// What the field says; none where tag and content do not fit.
pub(crate) fn read<'a>(part: Part<'a>) -> Option<Field<'a>>
    ensures { option_map said result ≡ field_of (raw part.entry) }
{
    match Tag::try_from(part.tag).ok()? {
        Tag::Interface => interface(part.content),
        Tag::Amounts => Some(Field::Amounts(part.content)),
        Tag::State => Some(Field::Actions(part.content)),
        Tag::Transition => transition(part.content),
        Tag::Entry => entry(part.content),
        Tag::Instance => instance(part.content),
        Tag::Connection => connection(part.content),
    }
}
