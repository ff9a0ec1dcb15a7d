// Leading from place to place, and counts of 255 at connected outputs.
ghost use Rattle.std.specs.Prelude.{◌≡◌, ℕ, ◌*◌, ◌/◌, ◌%◌, ◌<◌, ◌≤◌, Decides, MatchOption};
ghost use Rattle.costs.specs.Entries.{count};
ghost use Rattle.order.specs.Order.{Any, Marked, Below, Ready, Barred};
ghost use Rattle.networks.specs.Networks.{Node, Given, Leads, FullAt, NoneFull};
ghost use Rattle.networks.specs.Carried.{given_one};
ghost use Rattle.networks.specs.Rows.{net_of};
ghost use Rattle.networks.specs.Ways.{SendsOn, Carries, FullPlace};

use crate::beneath::Beneath;
use crate::net::Net;
use costs::entry::Entry;
use costs::measure::Measure;
use order::Graph;
use sheets::words::{Connection, End};
use std::marker::PhantomData;

// Whether place t is marked.
fn is_marked(marks: &[bool], t: usize) -> bool
    ensures { Decides result (Marked marks.now t) }
{
    marks.get(t).copied().unwrap_or(false)
}

// Whether some entry counts output o so often or more.
fn is_counted<M: Measure>(least: u8, entries: &[Entry<M>], o: usize) -> bool
    ensures { Decides result (Any (λ e. least ≤ count e o) entries.now) }
{
    entries.iter().any(|e| e.counts.count(o) >= least)
}

// Whether the source is an output of instance i that some entry counts so often or more.
fn is_sent<M: Measure>(least: u8, s: End, i: usize, entries: &[Entry<M>]) -> bool
    ensures { Decides result (SendsOn least entries.now i s) }
{
    match s {
        End::Outside { port: _ } => false,
        End::Inside { instance, port } => {
            instance as usize == i && is_counted(least, entries, port as usize)
        }
    }
}

// The unmarked place to which the connection leads from an output of instance i that some entry counts.
fn open_way<M: Measure>(
    c: Connection,
    i: usize,
    entries: &[Entry<M>],
    marks: &[bool],
) -> Option<usize>
    ensures { MatchOption result ((d : ℕ) → Carries entries.now i d c → Marked marks.now d) (λ d. Carries entries.now i d c × (Marked marks.now d → ⊥)) }
{
    match c.target {
        End::Outside { port: _ } => None,
        End::Inside {
            instance: j,
            port: h,
        } => {
            let d = 8 * j as usize + h as usize;
            if h < 8 && !is_marked(marks, d) && is_sent(1, c.source, i, entries) {
                return Some(d);
            }
            None
        }
    }
}

// A composite block with what lies beneath it, as a graph: its places are the nodes.
#[derive(Drop)]
pub struct Places<'a, M: Measure, B: Beneath<M>> {
    pub net: Net<'a>,
    pub beneath: &'a B,
    pub measure: PhantomData<M>,
    ghost given: { Given (net_of net (B.faces beneath.now)) (B.cards beneath.now) } by { given_one (net_of net (B.faces beneath.now)) (B.cards beneath.now) },
}

impl<'a, M: Measure, B: Beneath<M>> Places<'a, M, B> {
    pub(crate) fn new(net: Net<'a>, beneath: &'a B) -> Places<'a, M, B>
        requires { Given (net_of net (B.faces beneath.now)) (B.cards beneath.now) }
        ensures net { result.net ≡ net.entry }
        ensures beneath { result.beneath.now ≡ beneath.now }
    {
        Places {
            net,
            beneath,
            measure: PhantomData,
        }
    }

    // Whether k is the number of a place.
    fn is_place(&self, k: usize) -> bool
        ensures { Decides result (k % 8 < (B.faces self.now.beneath.now (k / 8)).inputs) }
    {
        k % 8 < self.beneath.face(k / 8).inputs
    }

    // Whether k is the number of a place for which some entry counts 255 at a connected output.
    fn is_full(&self, k: usize) -> bool
        ensures { Decides result (FullPlace (net_of self.now.net (B.faces self.now.beneath.now)) (B.cards self.now.beneath.now) k) }
    {
        let entries = self.beneath.card(k / 8, k % 8);
        let mut wires = self.net.connections.iter();
        self.is_place(k) && wires.any(|c| is_sent(255, c.source, k / 8, entries))
    }

    // The lowest such place.
    pub(crate) fn full_place(&self) -> Option<usize>
        ensures { MatchOption result (NoneFull (net_of self.now.net (B.faces self.now.beneath.now)) (B.cards self.now.beneath.now)) (FullAt (net_of self.now.net (B.faces self.now.beneath.now)) (B.cards self.now.beneath.now)) }
    {
        (0..8 * self.net.instances).find(
            |k: &usize| -> bool
                ensures { Decides result (FullPlace (net_of self.entry.now.net (B.faces self.entry.now.beneath.now)) (B.cards self.entry.now.beneath.now) k.now) }
            { self.is_full(*k) },
        )
    }
}

impl<'a, M: Measure, B: Beneath<M>> Graph for Places<'a, M, B> {
    ghost nodes = { λ g. 8 * g.net.instances };

    ghost node = { λ g k. Node (net_of g.net (B.Beneath.faces g.beneath.now)) k };

    ghost leads = { λ g. Leads (net_of g.net (B.Beneath.faces g.beneath.now)) (B.Beneath.cards g.beneath.now) };

    fn is_node(&self, k: usize) -> bool {
        self.is_place(k)
    }

    // An unmarked place to which place k leads; none where it leads to marked places only.
    fn barred(&self, k: usize, marks: &[bool]) -> Option<usize> {
        let entries = self.beneath.card(k / 8, k % 8);
        self.net
            .connections
            .iter()
            .find_map(|c| open_way(*c, k / 8, entries, marks))
    }
}
