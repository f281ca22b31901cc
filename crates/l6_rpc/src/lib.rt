//! The envelopes of a language server's messages: which of them are answered, and by what.
#![tactic(auto)]

mod channel;
mod envelope;
mod message;
mod refusal;
mod server;
mod service;
mod serving;

pub use channel::{Channel, ChannelFault};
pub use envelope::{answered, noted, refused};
pub use message::{Message, message_of};
pub use refusal::Refusal;
pub use server::{Phase, Reply, Server};
pub use service::{Note, OutOfMemory, Service};
pub use serving::serve;
