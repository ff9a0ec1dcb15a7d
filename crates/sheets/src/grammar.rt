// Which field may follow which.
ghost use Rattle.std.specs.Prelude.{◌≡◌, true, nat_le, slice_index, IsTrue};
ghost use Rattle.sheets.specs.Parts.{raw};
ghost use Rattle.sheets.specs.Tags.{number, kind_number};
ghost use Rattle.sheets.specs.Grammar.{belongs_to, fits_of, most_of};
ghost use Rattle.sheets.specs.Seen.{lower_in, room_in, allows_in, each_in, complete_in, Noted, Started};

use crate::part::Part;
use crate::seen::Seen;
use crate::tag::Tag;
use crate::width::Width;
use crate::words::Kind;

// The tag is one of the kind's.
fn belongs(kind: Kind, tag: Tag) -> bool
    ensures { result ≡ belongs_to (kind_number kind) (number tag) }
{
    match kind {
        Kind::Basic => matches!(tag, Tag::Amounts | Tag::State | Tag::Transition),
        Kind::Service => matches!(tag, Tag::Entry),
        Kind::Composite => matches!(tag, Tag::Instance | Tag::Connection),
    }
}

// The content has a length of the table.
fn fits(width: Width, outputs: u8, tag: Tag, len: usize) -> bool
    ensures { result ≡ fits_of width.bytes outputs (number tag) len }
{
    match tag {
        Tag::Interface => false,
        Tag::Amounts => len <= 16 * width.bytes && len % width.bytes == 0,
        Tag::State => len <= 8 && len % 2 == 0,
        Tag::Transition => len == 3,
        Tag::Entry => len == 1 + width.bytes + outputs as usize,
        Tag::Instance => len == 1,
        Tag::Connection => len == 4,
    }
}

// How many fields of a tag there may be; entries are counted for each event.
fn most(tag: Tag) -> u8
    ensures { result ≡ most_of (number tag) }
{
    match tag {
        Tag::Interface | Tag::Entry => 0,
        Tag::Amounts => 1,
        Tag::State => 32,
        Tag::Transition => 64,
        Tag::Instance => 16,
        Tag::Connection => 64,
    }
}

impl Seen {
    // What is remembered after the interface alone: a kind, 1 to 8 inputs and up to 8 outputs.
    pub(crate) fn start(head: Part<'_>) -> Option<Seen>
        ensures { Started (raw head.entry) result }
    {
        let [kind, inputs, outputs] = head.content else {
            return None;
        };
        let kind = Kind::try_from(*kind).ok()?;
        if head.tag != 1 || *inputs < 1 || 8 < *inputs || 8 < *outputs {
            return None;
        }
        Some(Seen {
            kind,
            inputs: *inputs,
            outputs: *outputs,
            last: 1,
            counts: [0; 8],
            entries: [0; 8],
        })
    }

    // A field of the tag has come.
    fn has(&self, tag: Tag) -> bool
        ensures { result ≡ nat_le 1 (slice_index self.now.counts (number tag)) }
    {
        1 <= self.counts[tag.number() as usize]
    }

    // The required lower tags have come.
    fn lower(&self, tag: Tag) -> bool
        ensures { result ≡ lower_in self.now (number tag) }
    {
        match tag {
            Tag::State => self.has(Tag::Amounts),
            Tag::Transition => self.has(Tag::Amounts) && self.has(Tag::State),
            Tag::Connection => self.has(Tag::Instance),
            _ => true,
        }
    }

    // Not too many of its tag have come, nor of an entry's event, if that is an input. The tag goes beside the part whose byte it was made of,
    // in three private functions that `follow` alone calls: a type for the pair would be taken apart in each.
    fn room(&self, tag: Tag, part: Part<'_>) -> bool
        requires { number tag ≡ part.tag }
        ensures { result ≡ room_in self.now (raw part.entry) }
    {
        if tag != Tag::Entry {
            return self.counts[tag.number() as usize] < most(tag);
        }
        match part.content {
            [event, ..] if *event < self.inputs => self.entries[*event as usize] < 16,
            [] => false,
            _ => true,
        }
    }

    // The field may follow those before it.
    fn allows(&self, width: Width, tag: Tag, part: Part<'_>) -> bool
        requires { number tag ≡ part.tag }
        ensures { result ≡ allows_in width.bytes self.now (raw part.entry) }
    {
        belongs(self.kind, tag)
            && fits(width, self.outputs, tag, part.content.len())
            && self.last <= part.tag
            && self.lower(tag)
            && self.room(tag, part)
    }

    // One field more.
    fn note(&mut self, tag: Tag, part: Part<'_>)
        requires tag { number tag ≡ part.tag }
        requires room { room_in self.old (raw part) ≡ true }
        ensures { Noted self.old (raw part.entry) self.new }
    {
        self.last = part.tag;
        if tag != Tag::Entry {
            self.counts[tag.number() as usize] += 1;
            return;
        }
        match part.content {
            [event, ..] if *event < self.inputs => self.entries[*event as usize] += 1,
            _ => {}
        }
    }

    // Whether the field may follow those before it; then it is remembered with them.
    pub(crate) fn follow(&mut self, width: Width, part: Part<'_>) -> bool
        ensures value { result ≡ allows_in width.bytes self.old (raw part.entry) }
        ensures noted { IsTrue result → Noted self.old (raw part.entry) self.new }
    {
        let Ok(tag) = Tag::try_from(part.tag) else {
            return false;
        };
        if !self.allows(width, tag, part) {
            return false;
        }
        self.note(tag, part);
        true
    }

    // Each input has an entry.
    fn each_event(&self) -> bool
        ensures { result ≡ each_in self.now.inputs self.now.entries }
    {
        self.entries[..self.inputs as usize].iter().all(|n| 1 <= *n)
    }

    // Nothing more is needed.
    pub(crate) fn complete(&self) -> bool
        ensures { result ≡ complete_in self.now }
    {
        match self.kind {
            Kind::Basic => self.has(Tag::Amounts) && self.has(Tag::State),
            Kind::Service => self.each_event(),
            Kind::Composite => self.has(Tag::Instance),
        }
    }
}
