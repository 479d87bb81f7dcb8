//! The outside as sources and sinks of octets. Each counts its faults, up to the greatest `u64`, and fails only where
//! its count rose in that call or stands there.
#![tactic(auto)]

mod mem_sink;
mod mem_source;
mod octets;
mod read_got;
mod retry;
mod sink;
mod source;
mod std_sink;
mod std_source;
mod sure_sink;
mod sure_source;
mod wrote;

pub use mem_sink::MemSink;
pub use mem_source::MemSource;
pub use ppp_memory::Memory;
pub use read_got::ReadGot;
pub use sink::Sink;
pub use source::Source;
pub use std_sink::StdSink;
pub use std_source::StdSource;
pub use sure_sink::SureSink;
pub use sure_source::SureSource;
pub use wrote::Wrote;
