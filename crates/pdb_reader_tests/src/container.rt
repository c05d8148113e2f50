//! Tests of the container: public calls, files, and sources that misbehave.

mod calls;
mod damage;
mod files;
mod layouts;
mod sources;
