//! A plain program of the serial table: it says of a reply whether the table allows it, and whether it names who stands in the way.
//!
//! Meaning: `Lists` hold a journal of changes, of which the last one counts, and `state_of` it is a state of sd_model
//! (`specs/Lists.antt`); a `SerialTable` stands for a state, a `Judge` for a scene: a state, and what each transaction waits for
//! (`specs/Scenes.antt`).
//! Keeps: nothing; any lists stand for a state, and any waits may stand beside it.
//! Promises: each change is that of sd_model's definition (`begin`, `take`, `commit`, `turn`, `undo`, `fall`, `cut`, `sweep`), and
//! each answer on causes its definition, both ways (`first_of`, `passes_all`, `tells`, `may_fall`). A verdict is the step of
//! sd_model, both ways (`SerialTable::step`, `Judges`); of a judge `Blocked` and `Deadlock` follow exactly where sd_base's
//! `IsBlocked` and `IsDeadlock` hold (`Judge::step`, `JudgesExactly`). Of a join all stands in one place (`joins.rt`).
//! Refuses: nothing but for want of memory, after which the state is as before; what it doesn't judge it says
//! (`Verdict::Unjudged`).
//! Knows nothing of: pages' bytes, pools, logs, devices, scripts; how a complex comes to its replies.
//! Stands on: sd_base, sd_model, sd_reclock.
//! Beside the house: tests hold it, and no part of the program is to stand on it.
//!
//! To change:
//! - free: bodies, proofs
//! - dear: `Lists`, `Standing`, `Judges`, `JudgesExactly`; an event more is one more answer in its file (`records.rt`,
//!   `rollbacks.rt`, `instances.rt`, `pages.rt`), a cause more one more arm of `says`
//! - frozen: nothing
#![tactic(auto)]

mod arguments;
mod asked;
mod blockers;
mod causes;
mod changers;
mod devices;
mod drafts;
mod failures;
mod fields;
mod instance_causes;
mod instances;
mod joins;
mod judge;
mod lists;
mod locks;
mod outcome;
mod page_causes;
mod pages;
mod record_changes;
mod records;
mod recoveries;
mod recovery_changes;
mod refusals;
mod reopenings;
mod replies;
mod rollback_changes;
mod rollbacks;
mod rows;
mod serial_table;
mod slots;
mod standing;
mod transactions;
mod value_causes;
mod values;
mod verdict;
mod watch;
mod wholes;

pub use arguments::tells;
pub use causes::{first_of, passes_all};
pub use devices::may_fall;
pub use fields::{rid_of, txn_of};
pub use joins::is_recovering;
pub use judge::Judge;
pub use lists::{Lists, with_status};
pub use locks::{is_lowest_obstacle, locked, obstacles};
pub use outcome::Outcome;
pub use serial_table::SerialTable;
pub use standing::{Standing, claim, instance, last_standing};
pub use values::{committed, find_row};
pub use verdict::Verdict;
pub use wholes::{Turn, turned_insts};
