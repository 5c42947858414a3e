//! What a line asks for: its command's kind is asked here, and nowhere behind it.

ghost use Rattle.std.specs.Prelude.{◌≡◌};
ghost use Rattle.frame_player.specs.Deed.{asking, command_of};

use crate::asked::Asked;
use broad_index::Query;
use fixed_box::{FBox, Point};
use live_table::{Group, Handle, Masks};
use scene_words::{Command, Version};

// What a line asks for.
#[derive(Clone, Copy)]
pub(crate) enum Deed {
    // Nothing, of a blank line.
    Nothing,
    // A query that can wait for its answer.
    Ask(Asked),
    // The nearest boxes, which are answered at once.
    Nearest(NearestAsked),
    // The frame ends.
    EndFrame,
    // The world changes at once, and replies in at most one line.
    Change(Change),
}

// A question for the boxes that are nearest to a point, of the groups that its mask has.
#[derive(Clone, Copy)]
pub(crate) struct NearestAsked {
    pub at: Point,
    pub want: u32,
    pub mask: u32,
}

// A change of the world.
#[derive(Clone, Copy)]
pub(crate) enum Change {
    Header {
        version: Version,
    },
    Add {
        body: FBox,
        masks: Masks,
        group: Group,
    },
    Move {
        handle: Handle,
        body: FBox,
    },
    Mask {
        handle: Handle,
        masks: Masks,
    },
    Remove {
        handle: Handle,
    },
    Mark,
    Back,
}

impl Deed {
    // What a command asks for.
    #[inline(always)]
    pub(crate) fn of(command: &Command) -> Deed
        ensures { command_of result ≡ command.now }
    {
        match *command {
            Command::Blank => Deed::Nothing,
            Command::Frame => Deed::EndFrame,

            Command::BoxQ { body, mask } => hits(Query::Region(body), mask),
            Command::PointQ { at, mask } => hits(Query::Spot(at), mask),
            Command::SegQ { seg, mask } => hits(Query::Between(seg), mask),
            Command::RayQ {
                ray,
                mask,
                entry: false,
            } => hits(Query::Along(ray), mask),
            Command::RayQ {
                ray,
                mask,
                entry: true,
            } => Deed::Ask(Asked::Entered { ray, mask }),
            Command::Cast { cast, mask } => hits(Query::Swept(cast), mask),
            Command::Near { at, want, mask } => Deed::Nearest(NearestAsked { at, want, mask }),

            Command::Header { version } => Deed::Change(Change::Header { version }),
            Command::Add { body, masks, group } => Deed::Change(Change::Add { body, masks, group }),
            Command::Move { handle, body } => Deed::Change(Change::Move { handle, body }),
            Command::Mask { handle, masks } => Deed::Change(Change::Mask { handle, masks }),
            Command::Remove { handle } => Deed::Change(Change::Remove { handle }),
            Command::Mark => Deed::Change(Change::Mark),
            Command::Back => Deed::Change(Change::Back),
        }
    }
}

// The boxes that meet a query.
#[inline(always)]
fn hits(query: Query, mask: u32) -> Deed
    ensures { command_of result ≡ asking (Asked.Hits query mask) }
{
    Deed::Ask(Asked::Hits { query, mask })
}
