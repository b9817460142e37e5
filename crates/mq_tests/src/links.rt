//! Tests of a link of either family that a program of C can't do: configurations read back, memory of the heap that is
//! refused, and the greatest limits. `tools/links` plays rows of datagrams on links of the library.

mod configurations;
mod facts;
mod given;
mod greatest;
mod reserving;
mod written;
