//! The contexts of a gateway's connections and calls, and the hooks of its calls: a base context, one for each
//! connection, and one for each call with its deadline and its request id.
#![tactic(auto)]

mod call_contexts;
mod calls;
mod contexts;
mod ends;
mod index;
mod life;
mod twig;
mod twigs;

pub use call_contexts::CallContexts;
