//! The tasks of arguments, the texts of help and on wrong arguments, and where they are reported.

mod definitions;
mod reading;
mod telling;
