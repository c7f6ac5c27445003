// What a verb asks of the system: files, the arguments, the clock, memory, and the standard output and error.
use std::env::Env;
use std::fs::File;
use std::rt::Files;
use std::time::Clock;

pub trait System: Files<File = File> + Env + Clock + Print + Eprint + AllocGlobal {}

impl System for HostRuntime {}
