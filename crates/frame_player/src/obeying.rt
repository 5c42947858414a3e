//! One line obeyed: a query waits, and any other line comes after the answers that are owed.

ghost use Rattle.std.specs.Prelude.{◌≡◌, ◌++◌, Bool, false, Ok, OnOk, OnErr};
ghost use Rattle.live_queries.specs.declared.groups.Groups.TheVariants.{Of};
ghost use Rattle.live_queries.specs.Queries.{nearest_to};
ghost use Rattle.pair_report.specs.PairReport.{near_line};
ghost use Rattle.play_rules.specs.World.{after, allowed, reply};
ghost use Rattle.scene_words.specs.Ranges.{IsPrintable, IsWanted};
ghost use Rattle.frame_player.specs.Deed.{changing};
ghost use Rattle.frame_player.specs.Outlet.{IsAppended, IsSentBy};
ghost use Rattle.frame_player.specs.Owed.{owed, IsRun};
ghost use Rattle.frame_player.specs.Player.{world_of, live_in, HasRoom};

use crate::deed::{Change, Deed, NearestAsked};
use crate::player::Player;
use crate::query_run::{QueryRun, gather, settle};
use crate::report::Report;
use crate::setup::Setup;
use broad_index::{BroadPhase, Gate};
use fixed_box::NoMemory;
use live_queries::{AskRoom, Groups, NearQuery};
use pair_report::put_near;
use play_io::{Sink, SinkFault};
use scene_words::Command;
use std::thread::Threads;

// Does what a line asks for. A query is held, and any other line, except a blank one, comes after the answers that are owed.
pub(crate) fn obey<R: Threads + Sync, B: BroadPhase + Sync + Drop, G: Gate + Sync, K: Sink>(
    setup: &Setup<'_, R, G>,
    player: &mut Player<B>,
    run: &mut QueryRun,
    command: &Command,
    out: &mut Report<'_, K>,
) -> Result<(), SinkFault>
    requires sound { player.old.world.spent ≡ false }
    requires allowed { allowed (world_of player.old.version player.old.world) (Ok command.now) ≡ Ok command.now }
    requires printable { IsPrintable command.now }
    requires room { HasRoom player.old.world.time.now }
    requires run { IsRun run.old }
    ensures obeyed { OnOk result (world_of player.new.version player.new.world
        ≡ after B.COUNTS (world_of player.old.version player.old.world) command.now) }
    ensures sound { OnOk result (player.new.world.spent ≡ false) }
    ensures sent { IsSentBy K.written K.faults K.since out.old out.new
        ((out.old.text.now.items ++ owed (live_in player.old.world) run.old)
        ++ reply setup.now.options.exchanges (world_of player.old.version player.old.world) command.now)
        (out.new.text.now.items ++ owed (live_in player.new.world) run.new) result }
    ensures run { OnOk result (IsRun run.new) }
{
    match Deed::of(command) {
        Deed::Nothing => Ok(()),
        Deed::Ask(asked) => gather(setup, player, run, asked, out),
        Deed::Nearest(query) => {
            settle(setup, player, run, out)?;
            send_nearest(player, &query, out)
        }
        Deed::EndFrame => {
            settle(setup, player, run, out)?;
            player.end_frame(setup, out)
        }
        Deed::Change(change) => {
            settle(setup, player, run, out)?;
            send_change(player, &change, out)
        }
    }
}

// Changes the world at once, and hands the reply on.
#[tactic(auto, using(crate::proofs::Sending::report_out_of_memory))]
fn send_change<B: BroadPhase + Drop, K: Sink>(
    player: &mut Player<B>,
    change: &Change,
    out: &mut Report<'_, K>,
) -> Result<(), SinkFault>
    requires sound { player.old.world.spent ≡ false }
    requires allowed { allowed (world_of player.old.version player.old.world) (Ok (changing change.now)) ≡ Ok (changing change.now) }
    requires room { HasRoom player.old.world.time.now }
    ensures obeyed { OnOk result (world_of player.new.version player.new.world
        ≡ after B.COUNTS (world_of player.old.version player.old.world) (changing change.now)) }
    ensures sound { OnOk result (player.new.world.spent ≡ false) }
    // It tells no exchanges.
    ensures sent { (shows : Bool) → IsAppended K.written K.faults K.since out.old out.new
        (reply shows (world_of player.old.version player.old.world) (changing change.now)) result }
{
    player.change(change, out.text)?;
    out.hand_on()
}

// The line of the nearest boxes.
#[tactic(auto, using(crate::proofs::Sending::report_out_of_memory))]
fn send_nearest<B: BroadPhase + Drop, K: Sink>(
    player: &Player<B>,
    query: &NearestAsked,
    out: &mut Report<'_, K>,
) -> Result<(), SinkFault>
    requires wanted { IsWanted query.now.want }
    ensures sent { IsAppended K.written K.faults K.since out.old out.new
        (near_line (nearest_to (live_in player.now.world) query.now.at query.now.want (Of query.now.mask))) result }
{
    put_nearest(player, query, out.text)?;
    out.hand_on()
}

fn put_nearest<B: BroadPhase + Drop>(
    player: &Player<B>,
    query: &NearestAsked,
    text: &mut Vec<u8>,
) -> Result<(), NoMemory>
    requires wanted { IsWanted query.now.want }
    ensures ok { OnOk result (text.new.items ≡ text.old.items
        ++ near_line (nearest_to (live_in player.now.world) query.now.at query.now.want (Of query.now.mask))) }
    ensures err { OnErr result (text.new.items ≡ text.old.items) }
{
    let near = NearQuery {
        at: query.at,
        want: query.want,
        groups: Groups::Of(query.mask),
    };
    let mut handles = Vec::new(player.alloc);
    let mut room = AskRoom::new(player.alloc);
    player.world.nearest(&near, &mut room, &mut handles)?;
    put_near(&handles, text)
}
