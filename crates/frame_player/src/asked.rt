//! A query that may wait for its answer, and what it asks the index.

ghost use Rattle.std.specs.Prelude.{◌≡◌, ◌++◌, [], OnOk, OnErr};
ghost use Rattle.broad_index.specs.Found.{found, kind_of};
ghost use Rattle.live_queries.specs.declared.groups.Groups.TheVariants.{Of};
ghost use Rattle.live_queries.specs.Pairs.{hits_of};
ghost use Rattle.live_table.specs.Bodies.{bodies_of};
ghost use Rattle.live_table.specs.Table.{IsTable};
ghost use Rattle.pair_report.specs.PairReport.{hits_line};
ghost use Rattle.frame_player.specs.Owed.{query_for, answer_line, met_line};

use broad_index::{QKind, Query};
use fixed_box::NoMemory;
use live_queries::{Groups, MetRoom, push_cast, push_entered, push_hits};
use live_table::{Handle, LiveTable};
use pair_report::{put_cast, put_hits};
use ray_slabs::Ray;

// A query that can wait for its answer.
#[derive(Clone, Copy)]
pub(crate) enum Asked {
    // The boxes that meet it, by their slots, and of a cast in the order in which it first meets them.
    Hits { query: Query, mask: u32 },
    // The boxes that a ray meets, in the order in which it first meets them.
    Entered { ray: Ray, mask: u32 },
}

impl Asked {
    // What an index is asked for it.
    pub(crate) fn query(&self) -> Query
        ensures { result ≡ query_for self.now }
    {
        match self {
            Asked::Hits { query, .. } => *query,
            Asked::Entered { ray, .. } => Query::Along(*ray),
        }
    }

    // Appends the line of the answer, from the slots that an index has found for the query. The list of handles is used again
    // and again.
    pub(crate) fn put_answer(
        &self,
        table: &LiveTable,
        slots: &[u32],
        handles: &mut Vec<Handle>,
        text: &mut Vec<u8>,
    ) -> Result<(), NoMemory>
        requires table { IsTable table.now }
        requires found { slots.now ≡ found (bodies_of table.now.entries) (query_for self.now) }
        ensures ok { OnOk result (text.new.items ≡ text.old.items ++ answer_line table.now.entries self.now) }
        ensures err { OnErr result (text.new.items ≡ text.old.items) }
    {
        handles.clear();
        let alloc = *handles.allocator();
        match self {
            Asked::Hits { query, mask } => put_met(table, query, *mask, slots, handles, text),
            Asked::Entered { ray, mask } => {
                let groups = Groups::Of(*mask);
                push_entered(table, ray, groups, slots, &mut MetRoom::new(alloc), handles)?;
                put_hits(QKind::Along, handles, text)
            }
        }
    }
}

// Appends the line of the boxes that meet a query, whose handles go into an empty list.
fn put_met(
    table: &LiveTable,
    query: &Query,
    mask: u32,
    slots: &[u32],
    handles: &mut Vec<Handle>,
    text: &mut Vec<u8>,
) -> Result<(), NoMemory>
    requires table { IsTable table.now }
    requires found { slots.now ≡ found (bodies_of table.now.entries) query.now }
    requires empty { handles.old.items ≡ [] }
    ensures ok { OnOk result (text.new.items ≡ text.old.items ++ met_line table.now.entries mask query.now) }
    ensures err { OnErr result (text.new.items ≡ text.old.items) }
{
    match query {
        Query::Swept(cast) => {
            let alloc = *handles.allocator();
            let groups = Groups::Of(mask);
            push_cast(
                table,
                cast,
                groups,
                slots,
                &mut MetRoom::new(alloc),
                handles,
            )?;
            put_cast(handles, text)
        }
        // each kind by itself, since its line is told by its kind
        Query::Region(_) => put_by_slots(table, query, mask, slots, handles, text),
        Query::Spot(_) => put_by_slots(table, query, mask, slots, handles, text),
        Query::Along(_) => put_by_slots(table, query, mask, slots, handles, text),
        Query::Between(_) => put_by_slots(table, query, mask, slots, handles, text),
    }
}

// The same in order of slots, under the word of the query's kind.
fn put_by_slots(
    table: &LiveTable,
    query: &Query,
    mask: u32,
    slots: &[u32],
    handles: &mut Vec<Handle>,
    text: &mut Vec<u8>,
) -> Result<(), NoMemory>
    requires table { IsTable table.now }
    requires found { slots.now ≡ found (bodies_of table.now.entries) query.now }
    requires empty { handles.old.items ≡ [] }
    ensures ok { OnOk result (text.new.items ≡ text.old.items ++ hits_line (kind_of query.now) (hits_of table.now.entries query.now (Of mask))) }
    ensures err { OnErr result (text.new.items ≡ text.old.items) }
{
    push_hits(table, query, Groups::Of(mask), slots, handles)?;
    put_hits(query.kind(), handles, text)
}
