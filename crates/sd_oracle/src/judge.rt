//! The judge: it says of each event and its reply whether the reply may follow, with exact waits.

ghost use Rattle.std.specs.Prelude.{◌≡◌, IfOk, OnErr, None};

use crate::blockers::Table;
use crate::watch::Watch;
use crate::{Outcome, SerialTable, Verdict};
use sd_base::{Memory, Rid, TxnId};
use sd_model::{Event, Reply, Rows};
use std::alloc::Global;
use std::collections::BTreeMap;
use std::marker::Model;

/// The serial table with what each transaction waits for. Contracts see what it holds, and `scene_of` that is a scene
/// (`specs/Scenes.antt`).
#[derive(Drop)]
pub struct Judge {
    watch: Watch,
}

impl Model for Judge {
    ghost use Rattle.sd_oracle.specs.Scenes.{Watching};
    ghost use Rattle.sd_oracle.specs.Watches.{watching};

    ghost Value = { Watching };

    ghost view = { λ j. watching j.watch };
}

impl Judge {
    ghost use Rattle.sd_base.specs.declared.ids.TxnId.{TxnId};
    ghost use Rattle.sd_oracle.specs.Lists.{fresh_with};
    ghost use Rattle.sd_oracle.specs.Scenes.{scene_of};
    ghost use Rattle.sd_oracle.specs.Exactly.{JudgesExactly};

    /// A fresh complex with these records, where nobody waits. It takes no memory.
    pub fn new(alloc: Global, start: Rows) -> Judge
        ensures state { (scene_of result).state ≡ fresh_with start }
        ensures waits { (t : TxnId) → (scene_of result).waits t ≡ None }
    {
        Judge {
            watch: Watch {
                table: Table {
                    serial: SerialTable::new(alloc, start),
                },
                waits: BTreeMap::new(alloc),
                alloc,
            },
        }
    }

    /// Judges the reply to the event as `SerialTable::step` does, and besides whether a refusal of a lock names exactly
    /// who stands in the way: `Blocked` the lowest such where no cycle arises, `Deadlock` a shortest cycle, the lowest by
    /// numbers. Told are the outcome, and at an insert the record that it asked for: where its lock is refused, one in
    /// whose slot it finds nothing. After `Memory` all is as before.
    pub fn step(
        &mut self,
        event: &Event,
        reply: &Reply,
        outcome: &Outcome,
        told: &Option<Rid>,
    ) -> Result<Verdict, Memory>
        ensures judged { let old = scene_of self.old in
            IfOk result (λ v. JudgesExactly v outcome.now told.now event.now reply.now old (scene_of self.new)) }
        ensures same { OnErr result (scene_of self.new ≡ scene_of self.old) }
    {
        self.watch.judge(event, reply, outcome, told)
    }
}
