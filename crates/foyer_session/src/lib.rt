//! Sessions over a cache, and the text that a program reads and prints.
#![tactic(auto)]

pub mod answers;
pub mod any_session;
pub mod command;
pub mod counting;
pub mod predicate;
pub mod session;
pub mod sim;
pub mod text;

pub use answers::Answers;
pub use any_session::run_any;
pub use command::{Answer, Command, End, Leaves, Reply};
pub use counting::Counting;
pub use predicate::{NoPredicate, Predicate};
pub use session::Session;
pub use sim::{SimArgs, SimPolicy, SimSession, SimValue, SimWeighter, sim_args, simulate};
