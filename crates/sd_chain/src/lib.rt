//! What logs and disk images stand for, and how each event keeps it: definitions and laws alone.
//!
//! Meaning: `stable` is what the devices' bytes keep (`specs/Bytes.antt`); `newest` and `Recovered` say what that stands for,
//! `Sound` when it does (`specs/Storage.antt`), and `DevicesAreSound` the seven checks of the bytes (`specs/Checks.antt`). Of a
//! complex `IsSafe` says that each image which a crash may leave is sound (`specs/Images.antt`), `IsSoundly` that it passes checks
//! 1, 2, 4 and 7 (`specs/Soundly.antt`), and `Coherent` that each copy is its page's newest version, and who answers for a record
//! that isn't forced (`specs/Coherent.antt`).
//! Keeps: nothing.
//! Promises: each event that its premises allow keeps `IsSafe`, and recovery gives what it should (`laws.rt`); it keeps
//! `IsSoundly`, and each image meanwhile passes all seven checks (`soundness_laws.rt`); it leaves a coherent complex
//! (`coherence_laws.rt`).
//! Refuses: nothing.
//! Knows nothing of: structures in memory, since logs, pools and the page directory are functions here; record locks; the calls of
//! a rig; what clients do.
//! Stands on: sd_base, sd_page, sd_logrec, sd_rig, sd_log, sd_pagelock.
//! Lends: in `proofs`, over any `may` or `leaves`, the lemma of each law; of lists of records Lists, Stacks, Whose, Members,
//! Chains, Newest, Sorts, Ties and Recover; Narrowed and Left of less that may be left; Cases and Versions for more of the kind.
//! Held by the caller: that a log which gets a record is settled, that places are well formed, and what a begun checkpoint has.
//!
//! To change:
//! - free: bodies, proofs
//! - dear: `Sound`, `Recovered`, `IsSafe`, `IsSoundly`, `Base`, `Dir`, `Coherent`, the premises of the events, the statements of
//!   the laws, and what is lent
//! - frozen: nothing
#![tactic(auto)]

pub mod coherence_laws;
pub mod laws;
pub mod soundness_laws;
