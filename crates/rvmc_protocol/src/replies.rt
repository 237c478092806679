//! The texts of answers to gdb (GDB manual, appendix 'Remote Protocol'): what the payloads of packets to it say of
//! registers, bytes, threads and stops. What they tell of a record is not known here.

mod digits;
mod features;
pub mod laws;
mod parts;
mod stops;
mod threads;

pub use digits::{put_bytes, put_register};
pub use features::description;
pub use parts::put_part;
pub use stops::{Stop, put_stop};
pub use threads::{
    put_current, put_host, put_name, put_named, put_process, put_supported, put_threads,
};
