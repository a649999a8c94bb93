//! The outside as the simulator sees it: outputs that take bytes, stores of named files, and a
//! hook at the start of each epoch's work, each a trait whose meaning contracts cite. Beside
//! them stand the objects in memory for tests, those that never fail, the adapters over streams
//! and files, and the fixed buffer in which every line of text is made.
#![tactic(auto)]

mod all_bytes;
mod decimal;
mod entries;
mod file_bytes;
mod file_name;
mod file_shelf;
mod first_refusal;
mod folders;
mod fresh_name;
mod gate;
mod honest_shelf;
mod honest_sink;
mod line;
mod memory_shelf;
mod memory_sink;
mod numbers;
mod placing;
mod refused;
mod reserved_buffer;
mod sealed;
mod shelf;
mod sink;
mod stream_sink;
mod system_folders;
mod taken_bytes;

pub use all_bytes::put_all;
pub use decimal::{is_numeral, value_of};
pub use file_name::is_file_name;
pub use file_shelf::FileShelf;
pub use first_refusal::first_found_is_first;
pub use folders::{Folders, Standing};
pub use gate::{Gate, OpenGate};
pub use honest_shelf::HonestShelf;
pub use honest_sink::HonestSink;
pub use line::{LINE_ROOM, Line};
pub use memory_shelf::MemoryShelf;
pub use memory_sink::MemorySink;
pub use numbers::u32_at;
pub use placing::place_file;
pub use refused::{Fault, NoMemory};
pub use sealed::stored_digest;
pub use shelf::{Fetched, Shelf};
pub use sink::Sink;
pub use stream_sink::StreamSink;
