//! Reads the lines and words of a text, reads and prints decimal numbers, and writes all bytes of a text or reports that it could not.
#![tactic(auto)]

pub mod numbers;
pub mod output;
pub mod printing;
pub mod reading;
pub mod spans;

pub use numbers::{NumFault, decimal};
pub use output::{Counted, Sink, WriteFault, write_whole};
pub use printing::{push_fixed3, push_fixed4, push_number};
pub use reading::Lines;
pub use spans::{Line, Span};
