//! Setups, histories, the abstract monitor that says which histories are legal, and their printed text.
#![tactic(auto)]

mod answer;
mod history;
mod laws;
mod line;
mod pages;
mod printing;
mod protection;
mod setup;
mod summary;

pub use answer::{Answer, Entry};
pub use history::History;
pub use laws::{
    added_bytes_leave_histories, answers_move_one_actor, faults_need_an_attack,
    guarded_pages_are_read, histories_grow_by_entries, mappings_have_their_words,
    pages_have_one_owner, shadows_keep_their_forks,
};
pub use line::{AttackLine, Line};
pub use pages::{all_pages, guarded_pages};
pub use printing::{put_entry, put_history, put_place};
pub use setup::{ChoiceName, Setup, SetupParts};
pub use summary::put_summary;
